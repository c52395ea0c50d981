use crate::open_store;
use bit_keys::Branch;
use mdb_core::{At, DbFault};
use mem_world::MemDisk;
use std::test::Fail;

// A disk without files has the store of the empty map, of the factor that was asked for, and no other after that.
#[test]
fn a_new_store_has_no_pairs_and_its_factor(rt: HostRuntime) -> Result<(), Fail> {
    let alloc = rt.alloc();
    let mut disk = MemDisk::new(alloc);
    let mut db = open_store(alloc, Branch::B16, &mut disk)?;
    assert_eq!(rt; db.root(), [0; 32]);
    assert!(rt;
        db.get(alloc, &mut disk, At::Store, b"k".as_slice())?
            .is_none()
    );
    db.close(&mut disk)?;
    let fault = open_store(alloc, Branch::B256, &mut disk).err();
    let differs = DbFault::BranchDiffers {
        kept: 16,
        asked: 256,
    };
    assert_eq!(rt; fault, Some(differs));
    Ok(())
}
