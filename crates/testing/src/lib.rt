// The tests of a step on configurations: each zone as the list of its robots.
//
//     tests   the tests that read no list
//     steps   all tests of a step
#![tactic(auto)]

mod steps;
mod tests;

ghost use Rattle.std.specs.Prelude.{◌≡◌};
ghost use Rattle.testing.specs.Fault.{refusal_of};
ghost use Rattle.testing.specs.OnMap.{FitsOn, SpotOf};

use layout::MapTables;
use numbering::Vertex;
use rosters::Spot;
pub use steps::test_step;

// Which of document 01's refusals of a step.
#[derive(Clone, Copy, Debug, PartialEq, Eq)]
pub enum StepFault {
    Short,
    Number,
    Edge,
    Leave,
    Enter,
}

// Why a plan is refused, with the step, the count of steps or the zone.
#[derive(Clone, Copy, Debug, PartialEq, Eq)]
pub enum PlanFault {
    Short(usize),
    Number(usize),
    Edge(usize),
    Leave(usize),
    Enter(usize),
    Goal(usize),
}

impl StepFault {
    // The refusal of a plan at step i.
    pub fn at(self, i: usize) -> PlanFault
        ensures { result ≡ refusal_of i self }
    {
        match self {
            StepFault::Short => PlanFault::Short(i),
            StepFault::Number => PlanFault::Number(i),
            StepFault::Edge => PlanFault::Edge(i),
            StepFault::Leave => PlanFault::Leave(i),
            StepFault::Enter => PlanFault::Enter(i),
        }
    }
}

// A step that passed its tests: its bytes, the indices at which its robot stands in the one list and comes into the other where it fills no clique, and
// how many bytes its follow list has.
#[derive(Clone, Copy)]
pub struct Step {
    pub bytes: wire::Four,
    pub out: usize,
    pub into: usize,
    pub list: usize,
}

// The lists of all zones: zone z's stands among the L cells from its first on and has counts[z] robots.
#[derive(Clone, Copy)]
pub struct Lists<const L: usize> {
    pub cells: [u8; L],
    pub counts: [u8; 64],
}

impl<const L: usize> Lists<L> {
    // Where vertex v stands.
    pub fn spot(&self, map: &MapTables<L>, v: Vertex) -> Spot
        requires { FitsOn map.now self.now v.0 }
        ensures { SpotOf map.now self.now v.0 result }
    {
        let zone = map.zone_at(v);
        Spot {
            zone,
            kind: map.kind_of(zone),
            first: map.first_of(zone),
            size: map.size_at(zone),
            count: self.counts[zone.0 as usize] as usize,
            place: map.place_at(v),
        }
    }
}
