// A map whose blocks have passed, which is read after that.
ghost use Rattle.std.specs.Prelude.{◌≤◌, ◌*◌, ◌/◌, length};
ghost use Rattle.std.proofs.Props.{props};
ghost use Rattle.spec.specs.Terms.{Bytes};
ghost use Rattle.opening.specs.Filed.{Passed};

// A map whose blocks have passed, and how long its payload is.
#[derive(Clone, Copy)]
pub struct FiledMap<'a> {
    pub file: &'a [u8],
    pub len: usize,
    pub ghost passed: { Passed file.now len } by { Prim.hlevel props },
    pub ghost bytes: { Bytes file.now } by { Prim.hlevel props },
    pub ghost inside: { len ≤ length file.now / 512 * 504 },
}
