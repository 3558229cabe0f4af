//! DER values of each kind: reading, writing and printing.
use crate::claims::Families;
use rpki_as::block::AsBlock;
use rpki_as::blocks::AsBlocks;
use rpki_as::resources::AsResources;
use rpki_base::asn::Asn;
use rpki_base::memory::OrMemory;
use rpki_der::sequences::encode_sequence;
use rpki_der::{Cursor, DerError};
use rpki_ip::family::AddressFamily;
use rpki_ip::prefix::Prefix;
use rpki_ipres::block::IpBlock;
use rpki_ipres::blocks::IpBlocks;
use rpki_ipres::resources::IpResources;
use std::alloc::{AllocError, Allocator};
use test_support::names::named;
use test_support::print;

/// A value that is read from DER, written and printed.
pub trait Value<A: Allocator + Copy>: Sized + Drop {
    /// The parameter of its reader.
    type Reader: Copy;

    /// Takes the value at the cursor.
    fn take(
        alloc: A,
        reader: Self::Reader,
        cursor: &mut Cursor<'_>,
    ) -> Result<Self, OrMemory<DerError>>;

    /// Appends the octets of the value. A set is a SEQUENCE.
    fn encode(&self, output: &mut Vec<u8, A>) -> Result<(), AllocError>;

    /// Returns whether the two are the same value.
    fn is(&self, other: &Self) -> bool;

    /// Prints the value in its own form, with addresses in the notation of a family.
    fn text(&self, alloc: A, family: AddressFamily) -> Result<String<A>, AllocError>;
}

/// Prints the octets of a value.
pub fn octets<A: Allocator + Copy, V: Value<A>>(
    alloc: A,
    value: &V,
) -> Result<String<A>, AllocError> {
    let mut output = print::output(alloc)?;
    let write = value.encode(&mut output);
    print::written(alloc, &output, write)
}

/// A reader of a value, or a skipper.
#[derive(Clone, Copy)]
pub enum Reader {
    Item(ItemReader),
    Skip(Skip),
    AsBlocks,
    /// A set of addresses, of any family if none is given.
    IpBlocks(Option<AddressFamily>),
    AsResources,
    IpResources(AddressFamily),
    /// The resources of addresses, by family.
    Families,
}

/// A reader of a value that takes no memory.
#[derive(Clone, Copy)]
pub enum ItemReader {
    Asn,
    OptionalAsn,
    Family,
    OptionalFamily,
    Prefix(Option<AddressFamily>),
    AsBlock,
    IpBlock(Option<AddressFamily>),
}

/// A skipper of a value.
#[derive(Clone, Copy)]
pub enum Skip {
    Asn,
    Family,
    AsBlock,
}

/// A value that takes no memory, or the result of an optional reader without one.
#[derive(Clone, Copy, PartialEq)]
pub enum Item {
    Asn(Asn),
    Family(AddressFamily),
    Prefix(Prefix),
    AsBlock(AsBlock),
    IpBlock(IpBlock),
    Missing,
}

const READERS: [(&str, Reader); 22] = [
    ("asblocks", Reader::AsBlocks),
    ("ipblocks", Reader::IpBlocks(None)),
    ("ipblocks4", Reader::IpBlocks(Some(AddressFamily::Ipv4))),
    ("ipblocks6", Reader::IpBlocks(Some(AddressFamily::Ipv6))),
    ("asres", Reader::AsResources),
    ("ipres4", Reader::IpResources(AddressFamily::Ipv4)),
    ("ipres6", Reader::IpResources(AddressFamily::Ipv6)),
    ("families", Reader::Families),
    ("prefix", Reader::Item(ItemReader::Prefix(None))),
    (
        "prefix4",
        Reader::Item(ItemReader::Prefix(Some(AddressFamily::Ipv4))),
    ),
    (
        "prefix6",
        Reader::Item(ItemReader::Prefix(Some(AddressFamily::Ipv6))),
    ),
    ("ipblock", Reader::Item(ItemReader::IpBlock(None))),
    (
        "ipblock4",
        Reader::Item(ItemReader::IpBlock(Some(AddressFamily::Ipv4))),
    ),
    (
        "ipblock6",
        Reader::Item(ItemReader::IpBlock(Some(AddressFamily::Ipv6))),
    ),
    ("asn", Reader::Item(ItemReader::Asn)),
    ("asnopt", Reader::Item(ItemReader::OptionalAsn)),
    ("skipasn", Reader::Skip(Skip::Asn)),
    ("family", Reader::Item(ItemReader::Family)),
    ("familyopt", Reader::Item(ItemReader::OptionalFamily)),
    ("skipfamily", Reader::Skip(Skip::Family)),
    ("asblock", Reader::Item(ItemReader::AsBlock)),
    ("skipas", Reader::Skip(Skip::AsBlock)),
];

impl Reader {
    /// Returns the reader with this name.
    pub fn named(name: &str) -> Option<Reader> {
        named(&READERS, name)
    }

    /// Returns the family in whose notation the value is printed.
    pub fn printed_family(self) -> AddressFamily {
        match self {
            Reader::IpBlocks(Some(family))
            | Reader::IpResources(family)
            | Reader::Item(ItemReader::Prefix(Some(family)))
            | Reader::Item(ItemReader::IpBlock(Some(family))) => family,
            _ => AddressFamily::Ipv6,
        }
    }
}

impl Skip {
    /// Skips the value at the cursor. Returns `None` if it is absent.
    pub fn skip(self, cursor: &mut Cursor<'_>) -> Result<Option<()>, DerError> {
        match self {
            Skip::Asn => Asn::skip_in(cursor).map(Some),
            Skip::Family => AddressFamily::skip_opt_in(cursor),
            Skip::AsBlock => AsBlock::skip_opt_in(cursor),
        }
    }
}

impl<A: Allocator + Copy> Value<A> for Item {
    type Reader = ItemReader;

    fn take(_: A, reader: ItemReader, cursor: &mut Cursor<'_>) -> Result<Item, OrMemory<DerError>> {
        take_item(reader, cursor).map_err(OrMemory::Refused)
    }

    fn encode(&self, output: &mut Vec<u8, A>) -> Result<(), AllocError> {
        match self {
            Item::Asn(asn) => asn.encode(output),
            Item::Family(family) => family.encode(output),
            Item::Prefix(prefix) => prefix.encode(output),
            Item::AsBlock(block) => block.encode(output),
            Item::IpBlock(block) => block.encode(output),
            Item::Missing => Ok(()),
        }
    }

    fn is(&self, other: &Item) -> bool {
        self == other
    }

    fn text(&self, alloc: A, family: AddressFamily) -> Result<String<A>, AllocError> {
        match self {
            Item::Asn(asn) => format!(in alloc; "{asn}"),
            Item::Family(AddressFamily::Ipv4) => String::from_str(alloc, "v4"),
            Item::Family(AddressFamily::Ipv6) => String::from_str(alloc, "v6"),
            Item::Prefix(prefix) => block_text(alloc, family, IpBlock::Prefix(*prefix)),
            Item::AsBlock(block) => format!(in alloc; "{block}"),
            Item::IpBlock(block) => block_text(alloc, family, *block),
            Item::Missing => String::from_str(alloc, "none"),
        }
    }
}

/// Prints a block of addresses in the notation of a family.
pub fn block_text<A: Allocator + Copy>(
    alloc: A,
    family: AddressFamily,
    block: IpBlock,
) -> Result<String<A>, AllocError> {
    match family {
        AddressFamily::Ipv4 => print::value(alloc, block.display_v4()),
        AddressFamily::Ipv6 => print::value(alloc, block.display_v6()),
    }
}

fn take_item(reader: ItemReader, cursor: &mut Cursor<'_>) -> Result<Item, DerError> {
    match reader {
        ItemReader::Asn => Ok(Item::Asn(Asn::take_from(cursor)?)),
        ItemReader::OptionalAsn => Ok(found(Asn::take_opt_from(cursor)?.map(Item::Asn))),
        ItemReader::Family => Ok(Item::Family(AddressFamily::take_from(cursor)?)),
        ItemReader::OptionalFamily => {
            Ok(found(AddressFamily::take_opt_from(cursor)?.map(Item::Family)))
        }
        ItemReader::Prefix(family) => Ok(Item::Prefix(prefix(cursor, family)?)),
        ItemReader::AsBlock => Ok(found(AsBlock::take_opt_from(cursor)?.map(Item::AsBlock))),
        ItemReader::IpBlock(family) => Ok(found(ip_block(cursor, family)?.map(Item::IpBlock))),
    }
}

fn found(item: Option<Item>) -> Item {
    match item {
        Some(item) => item,
        None => Item::Missing,
    }
}

fn prefix(cursor: &mut Cursor<'_>, family: Option<AddressFamily>) -> Result<Prefix, DerError> {
    match family {
        None => Prefix::take_from(cursor),
        Some(family) => Prefix::take_from_with_family(cursor, family),
    }
}

fn ip_block(
    cursor: &mut Cursor<'_>,
    family: Option<AddressFamily>,
) -> Result<Option<IpBlock>, DerError> {
    match family {
        None => IpBlock::take_opt_from(cursor),
        Some(family) => IpBlock::take_opt_from_with_family(cursor, family),
    }
}

impl<A: Allocator + Copy> Value<A> for AsBlocks<A> {
    type Reader = ();

    fn take(alloc: A, _: (), cursor: &mut Cursor<'_>) -> Result<AsBlocks<A>, OrMemory<DerError>> {
        AsBlocks::take_from(alloc, cursor)
    }

    fn encode(&self, output: &mut Vec<u8, A>) -> Result<(), AllocError> {
        encode_sequence(self.iter().as_slice(), output)
    }

    fn is(&self, other: &AsBlocks<A>) -> bool {
        self == other
    }

    fn text(&self, alloc: A, _: AddressFamily) -> Result<String<A>, AllocError> {
        format!(in alloc; "{self}")
    }
}

impl<A: Allocator + Copy> Value<A> for IpBlocks<A> {
    type Reader = Option<AddressFamily>;

    fn take(
        alloc: A,
        family: Option<AddressFamily>,
        cursor: &mut Cursor<'_>,
    ) -> Result<IpBlocks<A>, OrMemory<DerError>> {
        match family {
            None => IpBlocks::take_from(alloc, cursor),
            Some(family) => IpBlocks::take_from_with_family(alloc, cursor, family),
        }
    }

    fn encode(&self, output: &mut Vec<u8, A>) -> Result<(), AllocError> {
        IpBlocks::encode(self, output)
    }

    fn is(&self, other: &IpBlocks<A>) -> bool {
        self == other
    }

    fn text(&self, alloc: A, family: AddressFamily) -> Result<String<A>, AllocError> {
        print::value(alloc, self.display_with_family(family))
    }
}
