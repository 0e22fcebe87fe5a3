//! The calls that lay out labels, with structs that C and other languages share (`struct gs1_article` and the
//! following ones in gs1.h). Each call returns the number of the error, or 0.
ghost use Rattle.std.specs.Prelude.{◌≡◌, ◌<◌, ◌≤◌, ◌*◌, ◌+◌, ℕ, IfErr, IfOk, length};
ghost use Rattle.shop_core.specs.Drawings.{IsDrawingOf, IsOfSize};
ghost use Rattle.gs1_c.specs.Drawn.{AreWritten, IsArticleOf, IsWritten, flag, lent_drawing, lent_part};

use crate::label::{kind_numbered, label_of};
use crate::terms::terms_of;
use digits_core::RefusalKind;
use element_core::Year;
use shop_core::{
    Article, Commons, Drawing, Fonts, Ink, Item, LabelFault, Look, Measure, Part, Plan, Texts, draw,
};

/// How many bytes a row of 65,535 dots takes.
const ROW: usize = 8_192;

/// An article: the text and the number of the kind of its symbol, as `gs1_c_symbol` takes them, and its texts.
#[repr(C)]
#[derive(Clone, Copy)]
pub struct LentArticle<'a> {
    pub text: &'a [u8],
    pub texts: Texts<'a>,
    pub kind: u32,
    /// Nonzero if an ITF-14 gets bearer bars, one above it and one below it.
    pub bearers: u32,
}

/// An empty label, its fonts, and how it looks. Lengths are in dots unless a name says mm.
#[repr(C)]
#[derive(Clone, Copy)]
pub struct LentLook<'a> {
    pub aside: f64,
    pub above: f64,
    pub dots: f64,
    /// 0 for the module of the standard.
    pub module_mm: f64,
    /// 0 for the height of the look.
    pub bars_mm: f64,
    pub width: u16,
    pub height: u16,
    /// Nonzero if the price is the largest text.
    pub price_first: u32,
    pub fonts: Fonts<'a>,
}

/// A rectangle of a label, and what is drawn in it: 0, a bar; 1, a bearer; 2, letters.
#[repr(C)]
#[derive(Clone, Copy)]
pub struct LentPart {
    pub left: u16,
    pub top: u16,
    pub width: u16,
    pub height: u16,
    /// The text that its letters belong to, the index of the first one, and how many they are.
    pub field: u16,
    pub from: u16,
    pub count: u16,
    pub ink: u8,
    /// 1, an ellipsis follows; 2, bold; 4, struck through; or a sum of these.
    pub flags: u8,
    /// In 1/64 dot: the size of the letters, where they begin, their baseline, and the width of each letter's cell.
    pub size: u32,
    pub letters_left: u32,
    pub base: u32,
    pub step: u32,
}

/// A drawn label: its size, how many parts it has, and where its symbol stands.
#[repr(C)]
#[derive(Clone, Copy)]
pub struct LentDrawing {
    pub count: u32,
    pub nominal: u32,
    pub width: u16,
    pub height: u16,
    pub top: u16,
    pub end: u16,
    pub left: u16,
    pub dots: u16,
}

// Programs in other languages read them by these sizes.
const _: () = prove!(size_of::<LentPart>() == 32);

const _: () = prove!(size_of::<LentDrawing>() == 20);

/// The number of an error of labels (docs/FAULTS.md).
fn fault_number(fault: LabelFault) -> u32
    ensures { 0 < result }
{
    match fault {
        LabelFault::NoSymbol => RefusalKind::LabelKind as u32 + 1,
        LabelFault::TooWide => RefusalKind::LabelWidth as u32 + 1,
        LabelFault::Measures => 51,
        LabelFault::Module => 52,
        LabelFault::Bars => 53,
        LabelFault::NoPlace => 54,
        LabelFault::NoHeight => 55,
        LabelFault::Lines => 56,
        LabelFault::Misdrawn => 57,
    }
}

/// A number if something holds, else 0.
fn flag(number: u8, holds: bool) -> u8
    ensures { result ≡ flag number holds }
{
    if holds { number } else { 0 }
}

/// A part in numbers.
fn lent_part(part: &Part) -> LentPart
    ensures { result ≡ lent_part part.now }
{
    let dark = LentPart {
        left: part.left,
        top: part.top,
        width: part.width,
        height: part.height,
        field: 0,
        from: 0,
        count: 0,
        ink: 0,
        flags: 0,
        size: 0,
        letters_left: 0,
        base: 0,
        step: 0,
    };
    match part.ink {
        Ink::Bar => dark,
        Ink::Bearer => LentPart { ink: 1, ..dark },
        Ink::Letters(run) => LentPart {
            ink: 2,
            field: u16::from(run.field.number()),
            from: run.from,
            count: run.count,
            flags: flag(1, run.is_cut) + flag(2, run.is_bold) + flag(4, run.is_struck),
            size: run.size,
            letters_left: run.left,
            base: run.base,
            step: run.step,
            ..dark
        },
    }
}

/// A drawing in numbers.
fn lent_drawing(drawing: &Drawing) -> LentDrawing
    ensures { result ≡ lent_drawing drawing.now }
{
    LentDrawing {
        count: drawing.parts.len() as u32,
        nominal: drawing.nominal,
        width: drawing.width,
        height: drawing.height,
        top: drawing.top,
        end: drawing.end,
        left: drawing.left,
        dots: drawing.module,
    }
}

/// Writes parts if there is room for all of them.
fn write_parts(parts: &[Part], out: &mut [LentPart])
    ensures { AreWritten parts.now out.old out.new }
{
    if parts.len() > out.len() {
        return;
    }
    'parts: for k in 0..parts.len() {
        out[k] = lent_part(&parts[k]);
    }
}

/// A length, if the caller asks for one.
fn asked(length: f64) -> Option<f64> {
    if length == 0.0 { None } else { Some(length) }
}

impl<'a> LentLook<'a> {
    fn look(&self) -> Look
        ensures width { result.width ≡ self.now.width }
        ensures height { result.height ≡ self.now.height }
    {
        Look {
            width: self.width,
            height: self.height,
            aside: self.aside,
            above: self.above,
            dots: self.dots,
            module_mm: asked(self.module_mm),
            bars_mm: asked(self.bars_mm),
            is_price_first: self.price_first != 0,
        }
    }
}

impl<'a> LentArticle<'a> {
    /// The article, and the terms that the number means; or the number of the error.
    fn article(&self, year: u16) -> Result<(Article<'a>, Year), u32>
        ensures ok { IfOk result (λ it. IsArticleOf self.now year it.0 it.1) }
        ensures err { IfErr result (λ fault. 0 < fault) }
    {
        let Some(kind) = kind_numbered(self.kind) else {
            return Err(RefusalKind::Kind as u32 + 1);
        };
        let Some(terms) = terms_of(year) else {
            return Err(RefusalKind::Words as u32 + 1);
        };
        let label = match label_of(kind, self.text, terms) {
            Ok(label) => label,
            Err(refusal) => return Err(refusal.kind as u32 + 1),
        };
        match Article::new(label, self.texts, self.bearers != 0) {
            Ok(article) => Ok((article, terms)),
            Err(fault) => Err(fault_number(fault)),
        }
    }
}

/// The measures of an article's label that matter for the other labels of its list.
fn measured(look: &LentLook, article: &Article) -> Result<Measure, LabelFault> {
    let item = Item::of(article, &look.look())?;
    Ok(item.measure(&look.fonts))
}

/// The label of an article.
fn drawn(
    look: &LentLook,
    commons: &Commons,
    article: &Article,
    terms: Year,
    row: &mut [u8],
) -> Result<Drawing, LabelFault>
    requires { 65535 ≤ 8 * length row.old }
    ensures label { IfOk result (λ d. IsDrawingOf d article.now terms) }
    ensures width { IfOk result (λ d. d.width ≡ look.now.width) }
    ensures height { IfOk result (λ d. d.height ≡ look.now.height) }
{
    let empty = look.look();
    let item = Item::of(article, &empty)?;
    let plan = Plan {
        look: empty,
        fonts: look.fonts,
        commons: *commons,
    };
    draw(&item, &plan, terms, row)
}

/// Computes the measures of an article's label that matter for the other labels of its list.
#[unsafe(no_mangle)]
pub extern "C" fn gs1_c_measure(
    look: &LentLook,
    article: &LentArticle,
    year: u16,
    measure: &mut Measure,
) -> u32 {
    let (article, _) = match article.article(year) {
        Ok(it) => it,
        Err(fault) => return fault,
    };
    match measured(look, &article) {
        Ok(it) => {
            *measure = it;
            0
        }
        Err(fault) => fault_number(fault),
    }
}

/// Computes what the labels of a list have in common from their measures.
#[unsafe(no_mangle)]
pub extern "C" fn gs1_c_plan(look: &LentLook, measures: &[Measure], commons: &mut Commons) -> u32 {
    match Commons::of(measures, &look.look()) {
        Ok(it) => {
            *commons = it;
            0
        }
        Err(fault) => fault_number(fault),
    }
}

/// Draws the label of an article. Its parts lie on it and do not overlap, and its bars are those of the article's
/// symbol. It shows each text, or marks that the text goes on. The price is complete. Each row through the bars reads
/// back as the article and nothing else. If there is not room for all parts, it writes none.
///
/// `row` is memory of 8,192 bytes; its content does not matter.
#[unsafe(no_mangle)]
pub extern "C" fn gs1_c_draw(
    look: &LentLook,
    commons: &Commons,
    article: &LentArticle,
    year: u16,
    row: &mut [u8],
    parts: &mut [LentPart],
    drawing: &mut LentDrawing,
) -> u32
    ensures label { result ≡ 0 → IsWritten look.now article.now year drawing.new parts.old parts.new }
    ensures unchanged { 0 < result → parts.new ≡ parts.old }
{
    if row.len() < ROW {
        return RefusalKind::NoMemory as u32 + 1;
    }
    let (article, terms) = match article.article(year) {
        Ok(it) => it,
        Err(fault) => return fault,
    };
    match drawn(look, commons, &article, terms, row) {
        Ok(label) => {
            *drawing = lent_drawing(&label);
            write_parts(label.parts.as_slice(), parts);
            0
        }
        Err(fault) => fault_number(fault),
    }
}
