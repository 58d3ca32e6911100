//! Each bay once.

use fz_outside::Failed;
use outside_bays::bay::Bay;
use outside_bays::memory::MemBay;
use outside_bays::real::RealBay;
use outside_disks::disk::Disk;
use outside_disks::disks::Disks;
use outside_disks::memory::{Limits, MemDisk};
use std::os::unix::fs::PermissionsExt;
use std::test::Fail;
use std::{fs, io, rt};

const LIMITS: Limits = Limits {
    length: 8,
    calls: 9,
    written: 10,
};

// One disk alone.
fn alone<D: Drop>(disks: Disks<D>) -> Option<D> {
    match disks {
        Disks::One(disk) => Some(disk),
        Disks::Both(_, _) => None,
    }
}

// Both disks of two.
fn both<D: Drop>(disks: Disks<D>) -> Option<(D, D)> {
    match disks {
        Disks::One(_) => None,
        Disks::Both(first, second) => Some((first, second)),
    }
}

// Call 1 fails, and the disk is there still.
#[test]
fn disks_in_memory(rt: HostRuntime) -> Result<(), Fail> {
    let mut disks = Vec::new(rt.alloc());
    let disk = MemDisk::new(rt.alloc(), b"ab", LIMITS, &[])?;
    disks.push(Some(Disks::One(disk)))?;
    let mut bay = MemBay::new(disks, &[1]);
    let mut disk = alone(bay.take(0).ok().expect(&rt, "disks")).expect(&rt, "a disk");
    assert!(rt; disk.write_at(2, b"c") == Ok(()));
    bay.put_back(0, Disks::One(disk));
    assert!(rt; bay.take(0).is_err());
    let disk = alone(bay.take(0).ok().expect(&rt, "disks")).expect(&rt, "a disk");
    assert!(rt; disk.bytes() == b"abc".as_slice());
    Ok(())
}

// Two disks come back as they were put, in their order.
#[test]
fn two_disks_in_memory(rt: HostRuntime) -> Result<(), Fail> {
    let mut disks = Vec::new(rt.alloc());
    let first = MemDisk::new(rt.alloc(), b"a", LIMITS, &[])?;
    let second = MemDisk::new(rt.alloc(), b"b", LIMITS, &[])?;
    disks.push(Some(Disks::Both(first, second)))?;
    let mut bay = MemBay::new(disks, &[]);
    let (first, mut second) = both(bay.take(0).ok().expect(&rt, "disks")).expect(&rt, "two disks");
    assert!(rt; second.write_at(1, b"c") == Ok(()));
    bay.put_back(0, Disks::Both(first, second));
    let (first, second) = both(bay.take(0).ok().expect(&rt, "disks")).expect(&rt, "two disks");
    assert!(rt; first.bytes() == b"a".as_slice() && second.bytes() == b"bc".as_slice());
    Ok(())
}

// Taking a disk makes nothing. The first write makes the file and its folder, and the file is found again.
#[test]
fn files_of_the_system(rt: HostRuntime) -> Result<(), Fail> {
    let mut bay = RealBay::new(rt.alloc(), &rt, "outside_bays_test", None, 2)?;
    let mut made = alone(bay.take(1).ok().expect(&rt, "disks")).expect(&rt, "a disk");
    assert!(rt; made.len() == Ok(0));
    assert!(rt; fs::metadata(&rt, "outside_bays_test").is_err());
    assert!(rt; made.write_at(0, b"abc") == Ok(()));
    bay.put_back(1, Disks::One(made));
    let mut found = alone(bay.take(1).ok().expect(&rt, "disks")).expect(&rt, "a disk");
    assert!(rt; found.len() == Ok(3));
    assert!(rt; fs::metadata(&rt, "outside_bays_test/1.bud")?.len() == 3);
    fs::remove_dir_all(&rt, "outside_bays_test")?;
    Ok(())
}

// Whoever has taken a disk has its file alone, and both are for their owner alone.
#[test]
fn one_holder_a_file(rt: HostRuntime) -> Result<(), Fail> {
    let mut bay = RealBay::new(rt.alloc(), &rt, "outside_bays_held", None, 1)?;
    let mut other = RealBay::new(rt.alloc(), &rt, "outside_bays_held", None, 1)?;
    let mut made = alone(bay.take(0).ok().expect(&rt, "disks")).expect(&rt, "a disk");
    assert!(rt; made.write_at(0, b"abc") == Ok(()));
    assert!(rt; other.take(0).is_err());
    bay.put_back(0, Disks::One(made));
    let mut found = alone(other.take(0).ok().expect(&rt, "disks")).expect(&rt, "a disk");
    assert!(rt; found.len() == Ok(3));
    assert!(rt; bay.take(0).is_err());
    assert!(rt; mode_of(&rt, "outside_bays_held/0.bud")? == 0o600);
    assert!(rt; mode_of(&rt, "outside_bays_held")? == 0o700);
    fs::remove_dir_all(&rt, "outside_bays_held")?;
    Ok(())
}

fn mode_of<R: rt::Files>(rt: &R, path: &str) -> io::Result<u32> {
    Ok(fs::metadata(rt, path)?.permissions().mode() & 0o777)
}

// A folder of that name can't be opened, and stays as it is.
#[test]
fn a_folder_of_the_system(rt: HostRuntime) -> Result<(), Fail> {
    fs::create_dir_all(&rt, "outside_bays_folder/0.bud")?;
    let mut bay = RealBay::new(rt.alloc(), &rt, "outside_bays_folder", None, 2)?;
    assert!(rt; bay.take(0).is_err());
    assert!(rt; fs::metadata(&rt, "outside_bays_folder/0.bud")?.is_dir());
    fs::remove_dir_all(&rt, "outside_bays_folder")?;
    Ok(())
}

// Where no folder can be made the first write fails.
#[test]
fn no_folder_of_the_system(rt: HostRuntime) -> Result<(), Fail> {
    let mut nowhere = RealBay::new(rt.alloc(), &rt, "/proc/none", None, 1)?;
    let mut disk = alone(nowhere.take(0).ok().expect(&rt, "disks")).expect(&rt, "a disk");
    assert!(rt; disk.write_at(0, b"abc") == Err(Failed));
    assert!(rt; disk.fault_count() == 1);
    Ok(())
}

// Whether each call fails and counts.
fn is_broken<D: Disk>(disk: &mut D) -> bool {
    disk.len() == Err(Failed)
        && disk.read_at(0, &mut [0; 1]) == Err(Failed)
        && disk.write_at(0, b"x") == Err(Failed)
        && disk.sync() == Err(Failed)
        && disk.is_in_place() == Err(Failed)
        && disk.fault_count() == 5
}

// Two disks are files of two folders. One that can't be opened is a disk all of whose calls fail, and the other works.
#[test]
fn two_files_of_the_system(rt: HostRuntime) -> Result<(), Fail> {
    fs::create_dir_all(&rt, "outside_bays_mirrors/1.bud")?;
    let mirrors = Some("outside_bays_mirrors");
    let mut bay = RealBay::new(rt.alloc(), &rt, "outside_bays_two", mirrors, 2)?;
    let (mut first, mut second) = both(bay.take(0).ok().expect(&rt, "disks")).expect(
        &rt,
        "two disks",
    );
    assert!(rt; first.write_at(0, b"abc") == Ok(()) && second.write_at(0, b"d") == Ok(()));
    bay.put_back(0, Disks::Both(first, second));
    assert!(rt; fs::metadata(&rt, "outside_bays_two/0.bud")?.len() == 3);
    assert!(rt; fs::metadata(&rt, "outside_bays_mirrors/0.bud")?.len() == 1);
    let mut next = RealBay::new(rt.alloc(), &rt, "outside_bays_two", mirrors, 2)?;
    let (mut first, mut second) = both(next.take(1).ok().expect(&rt, "disks")).expect(
        &rt,
        "two disks",
    );
    assert!(rt; is_broken(&mut second) && first.write_at(0, b"abc") == Ok(()));
    fs::remove_dir_all(&rt, "outside_bays_two")?;
    fs::remove_dir_all(&rt, "outside_bays_mirrors")?;
    Ok(())
}

// Where another holds one of two files neither is taken, and both are there when it is let go.
#[test]
fn a_held_mirror(rt: HostRuntime) -> Result<(), Fail> {
    let mirrors = Some("outside_bays_mirror");
    let mut bay = RealBay::new(rt.alloc(), &rt, "outside_bays_whole", mirrors, 1)?;
    let mut other = RealBay::new(rt.alloc(), &rt, "outside_bays_mirror", None, 1)?;
    let mut held = alone(other.take(0).ok().expect(&rt, "disks")).expect(&rt, "a disk");
    assert!(rt; held.write_at(0, b"abc") == Ok(()));
    assert!(rt; bay.take(0).is_err());
    other.put_back(0, Disks::One(held));
    let (mut first, mut second) = both(bay.take(0).ok().expect(&rt, "disks")).expect(
        &rt,
        "two disks",
    );
    assert!(rt; first.len() == Ok(0) && second.len() == Ok(3));
    fs::remove_dir_all(&rt, "outside_bays_mirror")?;
    Ok(())
}
