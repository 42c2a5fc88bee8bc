// Document 01's table of refusals: the number and place of each fault that the readers, the checkers and the writer find.
#![tactic(auto)]

ghost use Rattle.std.specs.Prelude.{◌≡◌};
ghost use Rattle.refusals.specs.declared.Refusal.TheVariants.{Map, Placing, Plan, List, Answer};
ghost use Rattle.refusals.specs.Refusals.{block_of, number_of, place_of};

use answers::Undelivered;
use checking::FileFault;
use placing::PlacingFault;
use replay::ListFault;
use testing::PlanFault;
use zoning::MapFault;

// Why a service refuses.
#[derive(Clone, Copy, Debug, PartialEq, Eq)]
pub enum Refusal {
    MapFile(FileFault),
    Map(MapFault),
    Placing(PlacingFault),
    PlanFile(FileFault),
    Plan(PlanFault),
    ListFile(FileFault),
    List(ListFault),
    Answer(Undelivered),
}

impl From<MapFault> for Refusal {
    ghost from_gives = { λ f r. r ≡ Map f };

    fn from(f: MapFault) -> Refusal {
        Refusal::Map(f)
    }
}

impl From<PlacingFault> for Refusal {
    ghost from_gives = { λ f r. r ≡ Placing f };

    fn from(f: PlacingFault) -> Refusal {
        Refusal::Placing(f)
    }
}

impl From<PlanFault> for Refusal {
    ghost from_gives = { λ f r. r ≡ Plan f };

    fn from(f: PlanFault) -> Refusal {
        Refusal::Plan(f)
    }
}

impl From<ListFault> for Refusal {
    ghost from_gives = { λ f r. r ≡ List f };

    fn from(f: ListFault) -> Refusal {
        Refusal::List(f)
    }
}

impl From<Undelivered> for Refusal {
    ghost from_gives = { λ f r. r ≡ Answer f };

    fn from(f: Undelivered) -> Refusal {
        Refusal::Answer(f)
    }
}

impl Refusal {
    // The number: map 11 to 19, placing 21 to 28, plan 31 to 39 and 50, move list 41 to 48 and 51, answer 60 and 61.
    pub fn number(self) -> u32
        ensures { result ≡ number_of self }
    {
        match self {
            Refusal::MapFile(FileFault::Length) => 11,
            Refusal::MapFile(FileFault::Checksum(_)) => 12,
            Refusal::MapFile(FileFault::Head(_)) => 13,
            Refusal::MapFile(FileFault::Fill(_)) => 14,
            Refusal::Map(MapFault::Short(_)) => 15,
            Refusal::Map(MapFault::Range(_)) => 16,
            Refusal::Map(MapFault::Listing(_)) => 17,
            Refusal::Map(MapFault::Edge(_)) => 18,
            Refusal::Map(MapFault::Kind(_)) => 19,
            Refusal::Placing(PlacingFault::File(FileFault::Length)) => 21,
            Refusal::Placing(PlacingFault::File(FileFault::Checksum(_))) => 22,
            Refusal::Placing(PlacingFault::File(FileFault::Head(_))) => 23,
            Refusal::Placing(PlacingFault::File(FileFault::Fill(_))) => 24,
            Refusal::Placing(PlacingFault::Short(_)) => 25,
            Refusal::Placing(PlacingFault::Range) => 26,
            Refusal::Placing(PlacingFault::Start(_)) => 27,
            Refusal::Placing(PlacingFault::Goal(_)) => 28,
            Refusal::PlanFile(FileFault::Length) => 31,
            Refusal::PlanFile(FileFault::Checksum(_)) => 32,
            Refusal::PlanFile(FileFault::Head(_)) => 33,
            Refusal::PlanFile(FileFault::Fill(_)) => 34,
            Refusal::Plan(PlanFault::Short(_)) => 35,
            Refusal::Plan(PlanFault::Number(_)) => 36,
            Refusal::Plan(PlanFault::Edge(_)) => 37,
            Refusal::Plan(PlanFault::Leave(_)) => 38,
            Refusal::Plan(PlanFault::Enter(_)) => 39,
            Refusal::Plan(PlanFault::Goal(_)) => 50,
            Refusal::ListFile(FileFault::Length) => 41,
            Refusal::ListFile(FileFault::Checksum(_)) => 42,
            Refusal::ListFile(FileFault::Head(_)) => 43,
            Refusal::ListFile(FileFault::Fill(_)) => 44,
            Refusal::List(ListFault::Short(_)) => 45,
            Refusal::List(ListFault::Number(_)) => 46,
            Refusal::List(ListFault::Edge(_)) => 47,
            Refusal::List(ListFault::Standing(_)) => 48,
            Refusal::List(ListFault::Goal(_)) => 51,
            Refusal::Answer(Undelivered::NoRoom) => 60,
            Refusal::Answer(Undelivered::TooLong) => 61,
        }
    }

    // The place: a block, a payload offset, a zone, a step, a move or a robot; 0 where there is none.
    pub fn place(self) -> usize
        ensures { result ≡ place_of self }
    {
        match self {
            Refusal::MapFile(f)
            | Refusal::Placing(PlacingFault::File(f))
            | Refusal::PlanFile(f)
            | Refusal::ListFile(f) => block_of(f),
            Refusal::Map(
                MapFault::Short(i)
                | MapFault::Range(i)
                | MapFault::Listing(i)
                | MapFault::Edge(i)
                | MapFault::Kind(i),
            ) => i,
            Refusal::Placing(
                PlacingFault::Short(i) | PlacingFault::Start(i) | PlacingFault::Goal(i),
            ) => i,
            Refusal::Plan(
                PlanFault::Short(i)
                | PlanFault::Number(i)
                | PlanFault::Edge(i)
                | PlanFault::Leave(i)
                | PlanFault::Enter(i)
                | PlanFault::Goal(i),
            ) => i,
            Refusal::List(
                ListFault::Short(i)
                | ListFault::Number(i)
                | ListFault::Edge(i)
                | ListFault::Standing(i)
                | ListFault::Goal(i),
            ) => i,
            Refusal::Placing(PlacingFault::Range) => 0,
            Refusal::Answer(_) => 0,
        }
    }
}

// The block of a file's fault; 0 where it is of the whole file.
fn block_of(f: FileFault) -> usize
    ensures { result ≡ block_of f }
{
    match f {
        FileFault::Length => 0,
        FileFault::Checksum(i) | FileFault::Head(i) | FileFault::Fill(i) => i,
    }
}
