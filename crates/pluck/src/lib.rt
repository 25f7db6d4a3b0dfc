// Plucks: both levels of a line get the shape that their rule gives, by the table T or by a lent one.
#![tactic(auto)]

mod call;
mod lent;
mod shape;
mod table;

pub use call::pluck;
pub use lent::pluck_with;
