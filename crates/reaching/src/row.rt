// The robots of a zone in line.
ghost use Rattle.std.specs.Prelude.{◌+◌, ◌<◌, ◌^◌};

use motion::State;
use numbering::{Robot, Vertex};

// The robots of a zone, lowest first: those on the places that are left. A state, of N + M bytes, fits in memory.
#[derive(Drop)]
pub struct Row<'a, const N: usize, const M: usize> {
    pub state: &'a State<N, M>,
    pub zone: &'a [u8],
    pub ghost fits: { N + M < 2 ^ 63 },
}

impl<'a, const N: usize, const M: usize> Iterator for Row<'a, N, M> {
    ghost use Rattle.std.specs.Iterator.{YieldsFirstBy, item_count};
    ghost use Rattle.motion.specs.States.{robot_no};
    ghost use Rattle.reaching.specs.Row.{robots_left};

    type Item = Robot;

    ghost next_gives = { YieldsFirstBy robot_no robots_left };

    ghost remaining = { item_count robots_left };

    fn next(&mut self) -> Option<Robot> {
        // It goes down the slice: a `find` would answer the robot and not what is left.
        while let Some((v, rest)) = self.zone.split_first() {
            self.zone = rest;
            let r = self.state.robot_on(Vertex(*v));
            if r != Robot(255) {
                return Some(r);
            }
        }
        None
    }
}
