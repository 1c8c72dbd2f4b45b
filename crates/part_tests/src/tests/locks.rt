use engine_api::types::{Adjunct, ConnId, Name16, NoMemory, Resource, parse_adjunct};
use lock_core::recorded::Records;
use std::alloc::Global;
use std::test::Fail;

const R: Resource = Resource {
    name: Name16([65; 16]),
    hash: 7,
};

// Puts down record data of the first connector. Whether they are all that it has.
fn records_one(alloc: Global, records: &mut Records, data: Adjunct) -> Result<bool, NoMemory> {
    records.room()?;
    records.put(R, ConnId(1), data);
    let list = records.of(alloc, ConnId(1))?;
    Ok(list.len() == 1)
}

#[test]
fn records_are_told(rt: HostRuntime) -> Result<(), Fail> {
    let data = parse_adjunct(b"data").ok().ok_or("no record data")?;
    let mut records = Records::new(rt.alloc(), 2)?;
    assert!(rt; records_one(rt.alloc(), &mut records, data)?);
    Ok(())
}
