//! Shop labels: lays out the label of an article, and checks the drawing.
#![tactic(auto)]

mod article;
mod article_text;
mod bars;
mod drawing;
mod drawn;
mod fault;
mod form;
mod layout;
mod letters;
mod look;
mod part;
mod placing;
mod plan;
mod price_first;
mod row;
mod says;
mod small;
mod symbol_parts;
#[cfg(test)]
mod tests;
mod texts;
mod under;

pub use article::{Article, Texts};
pub use drawing::{Drawing, MOST_PARTS, check_drawing};
pub use drawn::draw;
pub use fault::LabelFault;
pub use letters::{Font, Fonts};
pub use look::Look;
pub use part::{Field, Ink, Part, Run};
pub use plan::{Common, Commons, Item, Measure, Plan};
