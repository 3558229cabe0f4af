//! Resources in DER: reading, writing and printing.
use crate::values::Value;
use rpki_as::resources::AsResources;
use rpki_base::memory::OrMemory;
use rpki_der::{Cursor, DerError};
use rpki_ip::family::AddressFamily;
use rpki_ipres::resources::IpResources;
use std::alloc::{AllocError, Allocator};
use test_support::print;

impl<A: Allocator + Copy> Value<A> for AsResources<A> {
    type Reader = ();

    fn take(
        alloc: A,
        _: (),
        cursor: &mut Cursor<'_>,
    ) -> Result<AsResources<A>, OrMemory<DerError>> {
        AsResources::take_from(alloc, cursor)
    }

    /// Appends the octets of the resources, if these are present.
    fn encode(&self, output: &mut Vec<u8, A>) -> Result<(), AllocError> {
        if self.is_present() {
            AsResources::encode(self, output)?;
        }
        Ok(())
    }

    fn is(&self, other: &AsResources<A>) -> bool {
        self == other
    }

    /// Prints `inherit`, or the listed resources in brackets.
    fn text(&self, alloc: A, _: AddressFamily) -> Result<String<A>, AllocError> {
        if self.is_inherited() {
            return String::from_str(alloc, "inherit");
        }
        format!(in alloc; "[{self}]")
    }
}

impl<A: Allocator + Copy> Value<A> for IpResources<A> {
    type Reader = AddressFamily;

    fn take(
        alloc: A,
        family: AddressFamily,
        cursor: &mut Cursor<'_>,
    ) -> Result<IpResources<A>, OrMemory<DerError>> {
        IpResources::take_from(alloc, cursor, family)
    }

    /// Appends the octets of the resources, if these are present.
    fn encode(&self, output: &mut Vec<u8, A>) -> Result<(), AllocError> {
        if self.is_present() {
            IpResources::encode(self, output)?;
        }
        Ok(())
    }

    fn is(&self, other: &IpResources<A>) -> bool {
        self == other
    }

    /// Prints `inherit`, or the listed addresses in brackets.
    fn text(&self, alloc: A, family: AddressFamily) -> Result<String<A>, AllocError> {
        match self.to_blocks() {
            Ok(set) => bracketed(alloc, print::value(alloc, set.display_with_family(family))),
            Err(OrMemory::Refused(_)) => String::from_str(alloc, "inherit"),
            Err(OrMemory::Memory(error)) => Err(error),
        }
    }
}

fn bracketed<A: Allocator + Copy>(
    alloc: A,
    text: Result<String<A>, AllocError>,
) -> Result<String<A>, AllocError> {
    let text = text?;
    format!(in alloc; "[{text}]")
}

/// The resources of each family, if they are present.
#[derive(Drop)]
pub struct Families<A: Allocator> {
    v4: Option<IpResources<A>>,
    v6: Option<IpResources<A>>,
}

impl<A: Allocator + Copy> Value<A> for Families<A> {
    type Reader = ();

    fn take(alloc: A, _: (), cursor: &mut Cursor<'_>) -> Result<Families<A>, OrMemory<DerError>> {
        let (v4, v6) = IpResources::take_families_from(alloc, cursor)?;
        Ok(Families { v4, v6 })
    }

    /// Appends the octets of the resources, if one of the families is present.
    fn encode(&self, output: &mut Vec<u8, A>) -> Result<(), AllocError> {
        let missing = IpResources::missing();
        encode_present(
            self.v4.as_ref().unwrap_or(&missing),
            self.v6.as_ref().unwrap_or(&missing),
            output,
        )
    }

    fn is(&self, other: &Families<A>) -> bool {
        self.v4 == other.v4 && self.v6 == other.v6
    }

    /// Prints both families, each in its own form, and `-` for an absent one.
    fn text(&self, alloc: A, _: AddressFamily) -> Result<String<A>, AllocError> {
        let v4 = family_text(alloc, AddressFamily::Ipv4, &self.v4)?;
        let v6 = family_text(alloc, AddressFamily::Ipv6, &self.v6)?;
        format!(in alloc; "v4 {v4} v6 {v6}")
    }
}

fn encode_present<A: Allocator + Copy>(
    v4: &IpResources<A>,
    v6: &IpResources<A>,
    output: &mut Vec<u8, A>,
) -> Result<(), AllocError> {
    if v4.is_present() || v6.is_present() {
        IpResources::encode_families(v4, v6, output)?;
    }
    Ok(())
}

fn family_text<A: Allocator + Copy>(
    alloc: A,
    family: AddressFamily,
    resources: &Option<IpResources<A>>,
) -> Result<String<A>, AllocError> {
    match resources {
        Some(resources) => resources.text(alloc, family),
        None => String::from_str(alloc, "-"),
    }
}
