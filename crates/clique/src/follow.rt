// Follow lists.
ghost use Rattle.std.specs.Prelude.{◌≤◌, length};

// A step's follow list (document 01, "Which moves are written"): the new arrangement of a clique that is filled, a robot for each place; at most 128.
#[derive(Clone, Copy)]
pub struct FollowList<'a> {
    pub names: &'a [u8],
    pub ghost short: { length names.now ≤ 128 },
}
