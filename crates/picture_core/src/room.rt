//! The memory that the caller lends.
ghost use Rattle.std.specs.Prelude.{◌≡◌, ◌+◌, ◌≤◌, IfNone, IfSome, OnSome, length};
ghost use Rattle.picture_core.specs.Pictures.{IsRoom, word_count};

use crate::layout::Layout;

/// Room for a row that is laid through a picture.
#[derive(Drop)]
pub(crate) struct RowRoom<'a> {
    /// Two words for each dot.
    pub(crate) samples: &'a mut [u32],
    pub(crate) parts: &'a mut [u32],
    pub(crate) places: &'a mut [u32],
    pub(crate) values: &'a mut [u32],
    pub(crate) ends: &'a mut [u32],
}

/// Room for reading pictures of a size. What stands in the memory does not matter.
#[derive(Drop)]
pub struct Room<'a> {
    /// The most dots of a row.
    pub width: usize,
    pub(crate) widths: &'a mut [u16],
    pub(crate) row: RowRoom<'a>,
    pub(crate) queue: &'a mut [u32],
    pub(crate) cos: &'a mut [u32],
    pub(crate) sin: &'a mut [u32],
    pub(crate) taken: &'a mut [u32],
    ghost enough: { width + 2 ≤ length widths.now },
}

/// How many words a picture of this size takes: six for each dot of its width and height together, two more, and four for each block.
pub fn words_for(width: u16, height: u16) -> usize
    ensures { result ≡ word_count width height }
{
    let width = usize::from(width);
    let height = usize::from(height);
    6 * (width + height) + 2 + 4 * Layout::of(width, height).blocks()
}

impl<'a> Room<'a> {
    /// Room for pictures of this size: as many words as `words_for` says, and two widths more than a row has dots; none of fewer.
    pub fn new(
        width: u16,
        height: u16,
        words: &'a mut [u32],
        widths: &'a mut [u16],
    ) -> Option<Room<'a>>
        ensures wide { IfSome result (λ room. room.width ≡ width) }
        ensures some { OnSome result (IsRoom width height (length words.old) (length widths.old)) }
        ensures none { IfNone result (IsRoom width height (length words.old) (length widths.old) → ⊥) }
    {
        if words.len() < words_for(width, height) || widths.len() < usize::from(width) + 2 {
            return None;
        }
        let dots = usize::from(width) + usize::from(height);
        let blocks = Layout::of(usize::from(width), usize::from(height)).blocks();
        let (samples, words) = words.split_at_mut(2 * dots);
        let (parts, words) = words.split_at_mut(dots);
        let (places, words) = words.split_at_mut(dots);
        let (values, words) = words.split_at_mut(dots);
        let (ends, words) = words.split_at_mut(dots + 2);
        let (queue, words) = words.split_at_mut(blocks);
        let (cos, words) = words.split_at_mut(blocks);
        let (sin, taken) = words.split_at_mut(blocks);
        Some(Room {
            width: usize::from(width),
            widths,
            row: RowRoom {
                samples,
                parts,
                places,
                values,
                ends,
            },
            queue,
            cos,
            sin,
            taken,
        })
    }
}
