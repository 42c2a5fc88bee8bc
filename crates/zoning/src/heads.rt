// The counts of a map, and a zone's kind and size.
ghost use Rattle.std.specs.Prelude.{◌≡◌, ◌≤◌};
ghost use Rattle.spec.specs.Layout.{read_head, counts_of};
ghost use Rattle.zoning.specs.Fault.{answered};
ghost use Rattle.zoning.specs.Bytes.{bytes};
ghost use Rattle.zoning.specs.Heads.{count_at, head_in, counts_in};

use crate::{Counts, Head, MapFault, PayloadBytes};
use numbering::ZoneKind;

// The kind and size at offset o.
pub fn read_head(payload: &PayloadBytes, o: usize) -> Result<Head, MapFault>
    requires { o ≤ 65536 }
    ensures { read_head (bytes payload.now) o ≡ answered head_in result }
{
    let number = payload.byte(o).ok_or(MapFault::Short(o))?;
    let Ok(kind) = ZoneKind::try_from(number) else {
        return Err(MapFault::Range(o));
    };
    let least = kind.least_size();
    let q = o + 1;
    let size = payload.byte(q).ok_or(MapFault::Short(q))?;
    if size < least {
        return Err(MapFault::Range(q));
    }
    Ok(Head { kind, size })
}

// The count at offset o, from 1 to the most.
fn read_count(payload: &PayloadBytes, o: usize, most: u8) -> Result<u8, MapFault>
    ensures { count_at most (bytes payload.now) o ≡ answered (λ n. n) result }
{
    let n = payload.byte(o).ok_or(MapFault::Short(o))?;
    if n < 1 || n > most {
        return Err(MapFault::Range(o));
    }
    Ok(n)
}

// How many vertices and zones the payload says there are.
pub fn read_counts(payload: &PayloadBytes) -> Result<Counts, MapFault>
    ensures { counts_of (bytes payload.now) ≡ answered counts_in result }
{
    let vertices = read_count(payload, 0, 128)?;
    let zones = read_count(payload, 1, 64)?;
    Ok(Counts { vertices, zones })
}
