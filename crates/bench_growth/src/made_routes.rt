//! VRPs and routes, made from pseudorandom numbers.
use roa_origin::Vrp;
use rpki_base::Asn;
use rpki_base::addr::{IpAddr, Ipv4Addr, Ipv6Addr};
use rpki_prefix::{MaxLenPrefix, Prefix};
use std::alloc::{AllocError, Global};

/// Prefix lengths of IPv4 and IPv6. Each is repeated in proportion to its share of 16 draws.
const V4: [u8; 16] = [
    24, 24, 24, 24, 24, 24, 24, 24, 24, 23, 22, 22, 21, 20, 19, 18,
];

const V6: [u8; 16] = [
    48, 48, 48, 48, 48, 48, 48, 44, 40, 40, 36, 32, 32, 32, 32, 29,
];

/// A generator of pseudorandom numbers of 64 bits (splitmix64).
#[derive(Drop)]
pub struct Numbers(u64);

impl Numbers {
    /// Returns the generator of the numbers that follow a seed.
    pub fn after(seed: u64) -> Numbers {
        Numbers(seed)
    }

    fn next(&mut self) -> u64 {
        self.0 = self.0.wrapping_add(0x9e37_79b9_7f4a_7c15);
        let first = (self.0 ^ (self.0 >> 30)).wrapping_mul(0xbf58_476d_1ce4_e5b9);
        let second = (first ^ (first >> 27)).wrapping_mul(0x94d0_49bb_1331_11eb);
        second ^ (second >> 31)
    }

    /// Returns a number below the limit, or 0 if the limit is 0.
    pub fn below(&mut self, limit: u64) -> u64 {
        self.next().checked_rem(limit).unwrap_or(0)
    }

    fn length(&mut self, lengths: &[u8]) -> u8 {
        let at = self.below(lengths.len() as u64);
        lengths.get(at as usize).copied().unwrap_or(0)
    }

    fn asn(&mut self) -> Asn {
        Asn::from_u32(u32::try_from(self.below(70_000)).unwrap_or(0))
    }

    fn prefix(&mut self) -> Option<Prefix> {
        if self.below(5) > 0 {
            let address = Ipv4Addr::from_bits(low_half(self.next()));
            let length = self.length(&V4);
            Prefix::new_v4_relaxed(address, length).ok()
        } else {
            let address = Ipv6Addr::from_bits((self.next() as u128) << 61);
            let length = self.length(&V6);
            Prefix::new_v6_relaxed(address, length).ok()
        }
    }

    /// Returns a VRP. A quarter of the VRPs have a maximum length, which is 24 in IPv4 and 48 in IPv6.
    fn vrp(&mut self) -> Option<Vrp> {
        let prefix = self.prefix()?;
        let longest = if prefix.is_v4() { 24 } else { 48 };
        let is_longer = self.below(4) == 0;
        let max_len = if is_longer { Some(longest) } else { None };
        let asn = self.asn();
        Some((MaxLenPrefix::saturating_new(prefix, max_len), asn))
    }

    /// Returns a route of a VRP: as long as the VRP allows, or one bit longer; some routes are by another AS.
    fn route_of(&mut self, vrp: &Vrp) -> Option<(Prefix, Asn)> {
        let longest = vrp.0.resolved_max_len();
        let is_longer = self.below(64) == 0;
        let length = longest.saturating_add(u8::from(is_longer));
        let other = self.asn();
        let asn = if self.below(64) == 0 { other } else { vrp.1 };
        let prefix = Prefix::new_relaxed(vrp.0.addr(), length).ok()?;
        Some((prefix, asn))
    }

    /// Returns a route of any prefix, or of one of the VRPs.
    fn route(&mut self, vrps: &[Vrp]) -> Option<(Prefix, Asn)> {
        let at = self.below(vrps.len() as u64);
        match vrps.get(at as usize) {
            Some(vrp) if self.below(2) == 0 => self.route_of(vrp),
            _ => {
                let prefix = self.prefix()?;
                Some((prefix, self.asn()))
            }
        }
    }
}

/// Returns the last 32 bits of a number.
fn low_half(number: u64) -> u32 {
    u32::try_from(number & 0xffff_ffff).unwrap_or(0)
}

/// Returns `count` VRPs.
pub fn vrps(alloc: Global, numbers: &mut Numbers, count: usize) -> Result<Vec<Vrp>, AllocError> {
    let mut vrps = Vec::new(alloc);
    for _ in 0..count {
        if let Some(vrp) = numbers.vrp() {
            vrps.push(vrp)?;
        }
    }
    Ok(vrps)
}

/// Returns `count` routes.
pub fn routes(
    alloc: Global,
    numbers: &mut Numbers,
    vrps: &[Vrp],
    count: usize,
) -> Result<Vec<(Prefix, Asn)>, AllocError> {
    let mut routes = Vec::new(alloc);
    for _ in 0..count {
        if let Some(route) = numbers.route(vrps) {
            routes.push(route)?;
        }
    }
    Ok(routes)
}
