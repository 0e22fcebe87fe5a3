//! Draws labels of articles.
ghost use Rattle.std.specs.Prelude.{IfOk, ◌*◌, ◌≤◌, length};
ghost use Rattle.sheet_core.specs.Labels.{IsDrawn};
ghost use Rattle.shop_core.specs.Drawings.{IsOfSize, IsDrawingOf};
ghost use Rattle.shop_core.specs.Under.{IsReadUnder};

use crate::drawing::{Drawing, check_drawing};
use crate::fault::LabelFault;
use crate::layout::sketch;
use crate::plan::{Item, Plan};
use element_core::Year;

/// The label of an article, or why it has none. It returns only labels that pass the final check.
///
/// `row` has room for a row of 65,535 dots. Its content does not matter.
pub fn draw(item: &Item, plan: &Plan, year: Year, row: &mut [u8]) -> Result<Drawing, LabelFault>
    requires { 65535 ≤ 8 * length row.old }
    ensures label { IfOk result (λ drawing. IsDrawingOf drawing item.now.article.now year) }
    ensures size { IfOk result (IsOfSize plan.now.look.width plan.now.look.height item.now.module) }
    ensures symbol { ∥ IsDrawn item.now.article.now.label item.now.article.now.symbol ∥₁ }
    ensures under { ∥ IsReadUnder item.now.article.now.label item.now.article.now.digits.items ∥₁ }
{
    let drawing = sketch(item, plan)?;
    if check_drawing(&drawing, item.article, year, row) {
        Ok(drawing)
    } else {
        Err(LabelFault::Misdrawn)
    }
}
