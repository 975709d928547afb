//! What the benchmark programs share: works that are timed, rows that hold their times to a bound,
//! the memory that the program has, and the texts of traces.
#![tactic(auto)]

mod memory;
mod row;
mod text;
mod total;

pub use memory::resident;
pub use row::{Bound, Row, compare, print_figure};
pub use text::Text;
pub use total::{Total, Work};
