//! What the labels of a list have in common.
ghost use Rattle.std.specs.Prelude.{◌≡◌, IfOk};

use crate::article::Article;
use crate::fault::LabelFault;
use crate::form::{is_retail, module_range};
use crate::letters::Fonts;
use crate::look::{Look, is_within};
use crate::part::Field;
use std::num::saturating_f64_to_u32;

/// The least width of a price beside the bars.
const LEAST_PRICE_MM: f64 = 15.0;

/// An article, and the dots of a module of its symbol.
#[derive(Clone, Copy)]
pub struct Item<'a> {
    pub article: &'a Article<'a>,
    pub module: u16,
}

/// The measures of a label that matter for the others of its list: how many dots wide its symbol is with its quiet
/// zones, how wide its price is, in 1/16,384 of its size, and 1 for an article or 0 for a case. C may pass any byte
/// for the last.
#[repr(C)]
#[derive(Clone, Copy, Debug, PartialEq, Eq)]
pub struct Measure {
    pub wide: u32,
    pub price: u32,
    pub retail: u8,
}

impl Measure {
    fn is_retail(&self) -> bool {
        self.retail != 0
    }
}

/// What the labels of a list have in common, so that their sheets look even: the dots of the widest symbol with its
/// price beside it, and the largest size of prices beside symbols and of prices above them.
#[repr(C)]
#[derive(Clone, Copy, Debug)]
pub struct Common {
    pub column: f64,
    pub beside: f64,
    pub above: f64,
}

/// What the labels of articles have in common, and those of cases, which are laid out differently.
#[repr(C)]
#[derive(Clone, Copy, Debug)]
pub struct Commons {
    pub articles: Common,
    pub cases: Common,
}

/// How the labels of a list are laid out.
#[derive(Clone, Copy)]
pub struct Plan<'a> {
    pub look: Look,
    pub fonts: Fonts<'a>,
    pub commons: Commons,
}

pub(crate) fn between(least: f64, length: f64, most: f64) -> f64 {
    length.min(most).max(least)
}

/// How many modules the symbol of an article has, with its quiet zones.
pub(crate) fn module_count(article: &Article) -> f64 {
    let mut count = u32::from(article.symbol.quiet_left())
        + u32::from(article.symbol.quiet_right());
    for width in article.symbol.widths() {
        count = count.saturating_add(u32::from(*width));
    }
    f64::from(count)
}

/// The dots of a module: of the numbers that are allowed and fit, the one nearest to the requested width.
fn module_of(article: &Article, look: &Look) -> Result<u16, LabelFault> {
    let kind = article.label.kind();
    let range = module_range(kind);
    let wanted = match look.module_mm {
        Some(wanted) => wanted,
        None => range.wanted,
    };
    if !is_within(range.least - 1e-9, wanted, range.most + 1e-9) {
        return Err(LabelFault::Module);
    }
    let narrower = article
        .symbol
        .quiet_left()
        .min(article.symbol.quiet_right());
    let quiet = if is_retail(kind) {
        0.0
    } else {
        f64::from(narrower)
    };
    let first = saturating_f64_to_u32((range.least * look.dots - 1e-6).ceil());
    let last = saturating_f64_to_u32((range.most * look.dots + 1e-6).floor());
    let mut found = None;
    let mut away = f64::MAX;
    for module in first..last.saturating_add(1).min(200) {
        let wide = f64::from(module);
        // Quiet zones may lie in the white margins, unless digits are in them.
        let needed = wide * module_count(article) + 2.0 * (look.aside - wide * quiet).max(0.0);
        let off = (wide / look.dots - wanted).abs();
        if needed <= look.wide() && off < away {
            found = Some(module.min(65_535) as u16);
            away = off;
        }
    }
    match found {
        Some(module) => Ok(module),
        None => Err(LabelFault::TooWide),
    }
}

impl<'a> Item<'a> {
    /// The article with its module on this label.
    pub fn of(article: &'a Article<'a>, look: &Look) -> Result<Item<'a>, LabelFault>
        ensures { IfOk result (λ item. item.article.now ≡ article.now) }
    {
        look.check()?;
        let module = module_of(article, look)?;
        Ok(Item { article, module })
    }

    pub(crate) fn is_retail(&self) -> bool {
        is_retail(self.article.label.kind())
    }

    pub(crate) fn module(&self) -> f64 {
        f64::from(self.module)
    }

    /// The width of the symbol with its quiet zones.
    pub(crate) fn wide(&self) -> f64 {
        module_count(self.article) * self.module()
    }

    /// Its measures that matter for the other labels.
    pub fn measure(&self, fonts: &Fonts) -> Measure {
        let price = self.article.text(Field::Price);
        Measure {
            wide: saturating_f64_to_u32(self.wide()),
            price: saturating_f64_to_u32(fonts.bold.width(price, 0, price.len()) * 16_384.0),
            retail: u8::from(self.is_retail()),
        }
    }
}

/// The labels of a list that have a price and whose symbol is at most this wide, or wider.
#[derive(Clone, Copy)]
struct Priced<'a> {
    measures: &'a [Measure],
    is_retail: bool,
    column: f64,
    is_beside: bool,
}

impl<'a> Priced<'a> {
    fn has(&self, measure: &Measure) -> bool {
        measure.is_retail() == self.is_retail
            && measure.price > 0
            && (f64::from(measure.wide) <= self.column) == self.is_beside
    }

    /// How many have a price of at most this width.
    fn count(&self, most: u32) -> usize {
        let mut count = 0usize;
        for measure in self.measures {
            if self.has(measure) && measure.price <= most {
                count = count.saturating_add(1);
            }
        }
        count
    }

    /// The median of the widths of their prices, 0 if there is none.
    fn middle(&self) -> u32 {
        let all = self.count(u32::MAX);
        if all == 0 {
            return 0;
        }
        let place = all - 1 - all / 2;
        let mut low = 0u32;
        let mut high = u32::MAX;
        for _ in 0..32u8 {
            let between = low / 2 + high / 2;
            if self.count(between) > place {
                high = between;
            } else {
                low = between.saturating_add(1);
            }
        }
        low
    }

    /// The size at which all prices fit this room, except those that are much longer than most; at most the largest.
    fn size(&self, room: f64, largest: f64) -> f64 {
        let middle = self.middle();
        let mut common = largest;
        for measure in self.measures {
            let size = room / (f64::from(measure.price) / 16_384.0);
            let is_usual = size >= 0.6 * (room / (f64::from(middle) / 16_384.0));
            if self.has(measure) && is_usual {
                common = common.min(size);
            }
        }
        common
    }
}

impl Common {
    /// What labels of this look with these measures have in common.
    fn of(measures: &[Measure], look: &Look, is_retail: bool) -> Common {
        let mut column = 0.0f64;
        for measure in measures {
            let wide = f64::from(measure.wide);
            if measure.is_retail() == is_retail
                && wide <= look.room() - LEAST_PRICE_MM * look.dots
            {
                column = column.max(wide);
            }
        }
        let beside = Priced {
            measures,
            is_retail,
            column,
            is_beside: true,
        };
        let above = Priced {
            is_beside: false,
            ..beside
        };
        Common {
            column,
            beside: beside.size(look.room() - column - look.dots, 18.0 * look.dots),
            above: above.size(
                0.48 * look.room(),
                between(3.2, 0.2 * look.high_mm(), 16.0) * look.dots,
            ),
        }
    }
}

impl Common {
    fn check(&self) -> Result<(), LabelFault> {
        let are_possible = is_within(0.0, self.column, 65_535.0)
            && is_within(-65_535.0, self.beside, 65_535.0)
            && is_within(-65_535.0, self.above, 65_535.0);
        if are_possible {
            Ok(())
        } else {
            Err(LabelFault::Measures)
        }
    }
}

impl Commons {
    /// What labels of this look with these measures have in common.
    pub fn of(measures: &[Measure], look: &Look) -> Result<Commons, LabelFault> {
        look.check()?;
        Ok(Commons {
            articles: Common::of(measures, look, true),
            cases: Common::of(measures, look, false),
        })
    }
}

impl<'a> Plan<'a> {
    /// Whether its measures are possible.
    pub(crate) fn check(&self) -> Result<(), LabelFault> {
        self.look.check()?;
        self.fonts.check()?;
        self.commons.articles.check()?;
        self.commons.cases.check()
    }

    /// What the labels of articles have in common, or those of cases.
    pub(crate) fn common(&self, is_retail: bool) -> &Common {
        if is_retail {
            &self.commons.articles
        } else {
            &self.commons.cases
        }
    }
}
