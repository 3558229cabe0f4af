//! Blocks of any kind, and chains of blocks.

pub use rpki_chain_core::block::Block;
pub use rpki_chain_core::chain::Chain;
pub use rpki_chain_core::counted::Counted;
pub use rpki_chain_core::owned::OwnedChain;
pub use rpki_chain_core::reads::Reads;
pub use rpki_chain_core::shared::SharedChain;
pub use rpki_chain_core::{contains_item_counted, difference_counted, trim_counted, union_counted};
