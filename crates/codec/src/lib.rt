// The operations on a code and on words that are sent: Sizes, Describe, Encode, Edit.

#![tactic(auto)]

mod describing;
mod editing;
mod encoding;

pub use describing::{Described, describe, sizes};
pub use editing::edit;
pub use encoding::encode;
