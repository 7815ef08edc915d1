// Room for listings: how long that of any herd whose inputs are in their ranges can be, and the totals' of any farm of
// such herds. A farm's listing has a room a herd, and the totals'. proofs/ shows that it is enough.
#![tactic(auto)]

pub const HERD_ROOM: usize = 1762;

pub const TOTALS_ROOM: usize = 766;
