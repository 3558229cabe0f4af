// Conversions of addresses.
use crate::checks::same;
use rpki_base::addr::{IpAddr, Ipv4Addr, Ipv6Addr};
use rpki_ip::addr::Addr;

#[test]
fn conversions_of_addresses(rt: HostRuntime) {
    let v4 = Ipv4Addr::from_bits(0x0a01_0203);
    let addr = Addr::from(v4);
    same(&rt, addr, Addr::from(IpAddr::V4(v4)));
    same(&rt, addr, Addr::from_v4(v4));
    same(&rt, addr.to_v4(), v4);
    same(&rt, Ipv4Addr::from(addr), v4);
    same(
        &rt,
        addr.to_bytes(),
        [10, 1, 2, 3, 0, 0, 0, 0, 0, 0, 0, 0, 0, 0, 0, 0],
    );
    let v6 = Ipv6Addr::from_bits(7);
    let addr = Addr::from(v6);
    same(&rt, addr, Addr::from(IpAddr::V6(v6)));
    same(&rt, addr, Addr::from_v6(v6));
    same(&rt, addr.to_v6(), v6);
    same(&rt, Ipv6Addr::from(addr), v6);
}
