// The choice among the candidates.
ghost use Rattle.std.specs.Prelude.{◌≡◌, length};
ghost use Rattle.evacuator.specs.Choice.{CandidatesRise, IsChoice, blocks_of_all, kept_within};

use tape_base::PieceId;

/// A piece that is to be copied ahead, with its place and its blocks.
#[derive(Clone, Copy, Debug, PartialEq, Eq)]
pub struct Candidate {
    pub id: PieceId,
    pub place: u64,
    pub blocks: u32,
}

/// Walks the candidates in rising place, and marks in `kept` those that the budget of blocks keeps.
pub fn choose(candidates: &[Candidate], budget: u32, kept: &mut [bool])
    requires rising { CandidatesRise candidates.now }
    requires sized { length kept.old ≡ length candidates.now }
    ensures choice { IsChoice budget (blocks_of_all candidates.now) kept.new }
    ensures walk { kept.new ≡ kept_within budget (blocks_of_all candidates.now) }
{
    let mut left = budget;
    for (i, candidate) in candidates.iter().enumerate() {
        let fits = candidate.blocks <= left;
        kept[i] = fits;
        if fits {
            left -= candidate.blocks;
        }
    }
}
