// PSEL's index unit as numbers: document 01's, and the unit's three in what is lent.
ghost use Rattle.std.specs.Prelude.{◌≡◌, MatchResult};
ghost use Rattle.setting.specs.Numbers.{refusal_number};
ghost use Rattle.index.specs.Index.{no_unit};
ghost use Rattle.exported.specs.Index.{indexed, indexed_of, indexed_as};

use index::IndexUnit;
use setting::Refusal;

fn unit(vl: u32, size: u32, offset: u32, w: u32) -> Result<IndexUnit, Refusal>
    ensures { MatchResult result
        (λ unit. indexed 0 unit ≡ indexed_of vl size offset w)
        (λ refusal. indexed (refusal_number refusal) no_unit ≡ indexed_of vl size offset w) }
{
    if !setting::length_allowed(vl) {
        return Err(Refusal::NotAllowed);
    }
    if !encoder::ranges::psel_offset(size, offset) {
        return Err(Refusal::OutOfRange);
    }
    Ok(index::unit(vl, element::log_of(size), w, offset))
}

// The adder's sum, the mask and the index that PSEL has for a W, and a number. A refused question has 0 for each of the three.
// As C gets them (`gighull_psel_index`, `indexed_as`): so no Result.
pub fn index(
    vl: u32,
    size: u32,
    offset: u32,
    w: u32,
    sum: &mut u32,
    mask: &mut u32,
    index: &mut u32,
) -> u32
    ensures { indexed_as result sum.new mask.new index.new ≡ indexed_of vl size offset w }
{
    // stored in each arm: of one place behind them LLVM makes longer code
    match unit(vl, size, offset, w) {
        Ok(unit) => {
            *sum = unit.sum;
            *mask = unit.mask;
            *index = unit.index;
            0
        }
        Err(refusal) => {
            *sum = 0;
            *mask = 0;
            *index = 0;
            u32::from(refusal)
        }
    }
}
