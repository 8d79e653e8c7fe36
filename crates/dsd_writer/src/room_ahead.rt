//! How much room the line of one number takes at most, whatever the number.

ghost use Rattle.std.specs.Prelude.{ℕ, ◌+◌, ◌*◌, ◌≤◌, List, [], ◌∷◌, length};
ghost use Rattle.dsd_writer.specs.Cuts.{joined};
ghost use Rattle.dsd_writer.specs.Lines.{lines_of};

use crate::items::Item;
use crate::many::room_for_values;

/// The greatest limit of payloads for which a line is given the room of a whole payload: 65,536 bytes.
const WHOLE: u64 = 65_536;

/// How many bytes the line of an item with one number adds at most, with what stands before its payload. Up to a limit of
/// 65,536 bytes it is as much as a whole payload, whatever the item; its texts are walked through only beyond.
pub(crate) fn most_of_a_line(limit: u64, item: &Item<'_>) -> usize
    requires { limit ≤ 4294967295 }
    ensures { (text : List ℕ) → length text ≤ 255
        → let lines = lines_of limit item.now (text ∷ []) in length (joined lines) + 4 * length lines ≤ result }
{
    if limit <= WHOLE {
        return limit as usize + 4;
    }
    match room_for_values(limit, item) {
        // A number behind its colon takes at most 256 bytes.
        Some(room) => (limit - room.saturating_sub(256) + 4) as usize,
        None => 0,
    }
}
