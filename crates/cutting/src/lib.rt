// A file of records one behind the other, read in blocks of any length: what the bytes of a record begun can say, and bytes gathered until
// they say more. How such a file is cut, and that the limits of the blocks make no difference, is in specs/Cutting.antt and proofs/Blocks.antt.
#![tactic(auto)]

ghost use Rattle.std.specs.Prelude.{◌≡◌, ◌≤◌, length, take};
ghost use Rattle.moves.specs.Moves.{placed};
ghost use Rattle.cutting.specs.Gather.{missing};

// Puts as many bytes of the block behind the `have` bytes held as are missing to `need`, and answers how many.
pub fn gather(work: &mut [u8], have: usize, need: usize, block: &[u8]) -> usize
    ensures answer { (result ≡ missing have need (length block.now)) × (result ≤ length block.now) }
    ensures memory { work.new ≡ placed work.old have (take result block.now) }
{
    let n = count(have, need, block.len());
    moves::copy(&block[..n], work, have);
    n
}

#[tactic(auto, using(crate::proofs::Counts::least_missing))]
fn count(have: usize, need: usize, room: usize) -> usize
    ensures { (result ≡ missing have need room) × (result ≤ room) }
{
    need.saturating_sub(have).min(room)
}
