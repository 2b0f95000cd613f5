// The test, over a disk in memory.
use crate::disks::InMemory;
use crate::lays;
use std::test::Fail;

#[test]
fn refuses_what_finds_no_page(rt: HostRuntime) -> Result<(), Fail> {
    lays::refuses_what_finds_no_page::<HostRuntime, InMemory>(&rt)
}
