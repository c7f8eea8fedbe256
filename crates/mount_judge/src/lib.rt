// What a mount makes of what a scan found: the answer, and the mounted state.
#![tactic(auto)]

ghost use Rattle.std.specs.Prelude.{◌≡◌, ◌<◌};
ghost use Rattle.geometry.specs.Limits.{Valid};
ghost use Rattle.scan_found.specs.Told.{told};
ghost use Rattle.mount_judge.specs.Judging.{judged_by, state_of};

use geometry::Geometry;
use scan_found::Found;
use scan_found::contents::Copies;
use state::State;

// The answer from what was found, one of the paper's numbers (docs/DECISIONS.md): 4 no table, 5 wrong table, 6 clash, or 0.
pub fn judge(found: Found, g: Geometry, copies: &Copies<'_>) -> usize
    requires valid { Valid g }
    requires table_bound { found.table < 4096 }
    ensures { result ≡ judged_by g found (told copies.now) }
{
    if !found.tables {
        return 4;
    }
    if found.right != 1
        || !bitmaps::is_never_both(&found.marked, &found.bits, g.blocks)
        || bitmaps::is_set(&found.bits, found.table)
    {
        return 5;
    }
    if copies.is_clash(&found.bits, g.logical, g.blocks) {
        return 6;
    }
    0
}

// The mounted state from what was found.
pub fn mounted_state(found: Found, g: Geometry, copies: &Copies<'_>) -> State
    requires { Valid g }
    ensures { result ≡ state_of g found (told copies.now) }
{
    let mut map = [65535u16; 4096];
    copies.map_copies(&found.bits, g.blocks, g.logical, &mut map);
    let mut kinds = [0u8; 4096];
    copies.list_kinds(g.logical, &map, &mut kinds);
    State::mounted_above(
        found.greatest,
        found.table,
        found.last,
        found.marked,
        found.bits,
        map,
        kinds,
    )
}
