// Each type that a user of the Rust crate `rpki` looks for, by each of its paths. A constant is well typed if its paths
// are names of one type. Nothing else is checked.
use std::marker::PhantomData;

mod addr;
mod asn;
mod asres;
mod chain;
mod choice;
mod counted;
mod faults;
mod ipres;
mod or_memory;
mod set;
mod traits;

/// The names of a type.
pub type Names<T, const N: usize> = [PhantomData<T>; N];
