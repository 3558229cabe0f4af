//! Types of `repository::resources::chain` by each of their names.
use crate::paths::Names;
use rpki_as::AsBlock;
use rpki_resources::repository::resources::chain as there;
use std::marker::PhantomData;

pub const CHAIN: Names<rpki_chain::Chain<'static, AsBlock>, 2> = [
    PhantomData::<there::Chain<'static, AsBlock>>,
    PhantomData::<rpki_chain_core::chain::Chain<'static, AsBlock>>,
];

pub const OWNED_CHAIN: Names<rpki_chain::OwnedChain<AsBlock>, 2> = [
    PhantomData::<there::OwnedChain<AsBlock>>,
    PhantomData::<rpki_chain_core::owned::OwnedChain<AsBlock>>,
];

pub const SHARED_CHAIN: Names<rpki_chain::SharedChain<AsBlock>, 2> = [
    PhantomData::<there::SharedChain<AsBlock>>,
    PhantomData::<rpki_chain_core::shared::SharedChain<AsBlock>>,
];

pub const COUNTED: Names<rpki_chain::Counted<'static, AsBlock>, 2> = [
    PhantomData::<there::Counted<'static, AsBlock>>,
    PhantomData::<rpki_chain_core::counted::Counted<'static, AsBlock>>,
];
