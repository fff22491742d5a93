// Groups of eight terms, counted into cells.
ghost use Rattle.std.specs.Prelude.{◌≡◌, ℕ, ◌+◌, ◌*◌, ◌/◌, ◌%◌, ◌^◌, ◌<◌, slice_index, slice_set};
ghost use Rattle.run.specs.Counting.{Counted, Room, HandsOut};

use crate::rows::Rows;
use crate::stretch::Stretch;
use arithmetic::Arithmetic;
use digits::DigitSource;

// Takes the group of a point from the source, adds the weight to the cell that the group's digits number, and gives the
// point of the next group.
fn deposit<S: DigitSource>(source: &mut S, cells: &mut [u64; 256], point: u32, weight: u32) -> u32
    requires below { point < S.modulus source.old }
    requires room { (i : ℕ) → slice_index cells.old i + weight < 2 ^ 64 }
    ensures point { result ≡ 256 * point % S.modulus source.old }
    ensures cells { cells.new ≡ slice_set cells.old (256 * point / S.modulus source.old) (slice_index cells.old (256 * point / S.modulus source.old) + weight) }
    ensures source { HandsOut S.modulus S.taken source.old source.new 1 }
{
    let (group, next) = source.group(point);
    let cell = group as usize;
    cells[cell] = cells[cell] + weight as u64;
    next
}

// Counts so many groups on end in a row. Two chains of weights, for every other group each, so that one product does not
// wait for the one before it. They and the point are locals, and no struct of them: the loop is hot.
pub(crate) fn take_groups<W: Arithmetic, S: DigitSource>(
    rows: &Rows<W>,
    source: &mut S,
    cells: &mut [u64; 256],
    from: Stretch<W::Element>,
    groups: u32,
) -> Stretch<W::Element>
    requires same { S.modulus source.old ≡ rows.now.modulus }
    requires below { from.point < rows.now.modulus }
    requires room { (i : ℕ) → slice_index cells.old i + groups * rows.now.modulus < 2 ^ 64 }
    ensures counted { Counted rows.now.modulus (W.residue rows.now.arithmetic.now rows.now.ratio) 8 groups from.point (W.residue rows.now.arithmetic.now from.weight) result.point (W.residue rows.now.arithmetic.now result.weight) cells.old cells.new }
    ensures room { Room rows.now.modulus groups cells.old cells.new }
    ensures sum { result.sum ≡ from.sum }
    ensures source { HandsOut S.modulus S.taken source.old source.new groups }
{
    let arithmetic = rows.arithmetic;
    let mut point = from.point;
    let mut even = from.weight;
    let mut odd = arithmetic.mul(even, rows.eighth);
    for _i in 0..groups / 2 {
        point = deposit(source, cells, point, arithmetic.take_out(even));
        even = arithmetic.mul(even, rows.sixteenth);
        point = deposit(source, cells, point, arithmetic.take_out(odd));
        odd = arithmetic.mul(odd, rows.sixteenth);
    }
    if groups % 2 == 0 {
        let weight = even;
        return Stretch {
            point,
            weight,
            ..from
        };
    }
    let point = deposit(source, cells, point, arithmetic.take_out(even));
    let weight = odd;
    Stretch {
        point,
        weight,
        ..from
    }
}
