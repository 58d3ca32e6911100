//! Each form once, and which of its calls fail.

use fz_outside::Failed;
use outside_disks::disk::Disk;
use outside_disks::failing::{BlipDisk, FuseDisk};
use outside_disks::memory::{Limits, MemDisk};
use outside_disks::real::{FileDisk, FilePlace, open_file};
use std::alloc::Global;
use std::test::Fail;
use std::{fs, rt};

const LIMITS: Limits = Limits {
    length: 8,
    calls: 9,
    written: 10,
};

// Writes, and then reads two bytes from place 3 on.
fn write_and_read<D: Disk>(disk: &mut D, place: u64, bytes: &[u8]) -> Result<[u8; 2], Failed> {
    disk.write_at(place, bytes)?;
    let mut buf = [9; 2];
    disk.read_at(3, &mut buf)?;
    Ok(buf)
}

// A write's place and bytes, and what is read then.
type Write = (u64, &'static [u8], Result<[u8; 2], Failed>);

fn answers<D: Disk>(disk: &mut D, writes: &[Write]) -> bool {
    for (place, bytes, want) in writes {
        if write_and_read(disk, *place, bytes) != *want {
            return false;
        }
    }
    true
}

// Call 2 is listed; a write ends past the length 8, the sum of bytes is over 10, and there are over nine calls.
const LIMITED: [Write; 7] = [
    (4, b"xyz", Ok([0, b'x'])),
    (0, b"", Err(Failed)),
    (6, b"no!", Err(Failed)),
    (5, b"end", Ok([0, b'x'])),
    (0, b"fives", Err(Failed)),
    (0, b"f", Ok([0, b'x'])),
    (0, b"", Err(Failed)),
];

#[test]
fn limits_of_memory(rt: HostRuntime) -> Result<(), Fail> {
    let mut disk = MemDisk::new(rt.alloc(), b"abc", LIMITS, &[2])?;
    assert!(rt; answers(&mut disk, &LIMITED));
    assert!(rt; disk.bytes() == b"fbc\0xend".as_slice());
    Ok(())
}

// A fuse of three calls.
const BY_FUSE: [Write; 3] = [
    (0, b"1", Ok([b'd', b'e'])),
    (0, b"2", Err(Failed)),
    (0, b"3", Err(Failed)),
];

#[test]
fn fuse(rt: HostRuntime) -> Result<(), Fail> {
    let mut fuse = FuseDisk::new(MemDisk::new(rt.alloc(), b"abcde", LIMITS, &[])?, 3);
    assert!(rt; answers(&mut fuse, &BY_FUSE));
    assert!(rt; fuse.sync() == Err(Failed));
    assert!(rt; fuse.into_inner().bytes() == b"2bcde".as_slice());
    Ok(())
}

// A fault at call 3 alone.
const BY_BLIP: [Write; 3] = [
    (0, b"1", Ok([b'd', b'e'])),
    (0, b"2", Err(Failed)),
    (0, b"3", Ok([b'd', b'e'])),
];

#[test]
fn blip(rt: HostRuntime) -> Result<(), Fail> {
    let mut blip = BlipDisk::new(MemDisk::new(rt.alloc(), b"abcde", LIMITS, &[])?, 3);
    assert!(rt; answers(&mut blip, &BY_BLIP));
    assert!(rt; blip.sync() == Ok(()));
    assert!(rt; blip.into_inner().bytes() == b"3bcde".as_slice());
    Ok(())
}

// Whether the disk can be synced and has these bytes, and zeros behind them.
fn has<D: Disk>(disk: &mut D, length: u64, bytes: &[u8; 6]) -> bool {
    let mut buf = [9; 6];
    disk.read_at(0, &mut buf) == Ok(())
        && disk.sync() == Ok(())
        && disk.len() == Ok(length)
        && buf == *bytes
}

// A file as a disk: nothing is made before the first write, and zeros stand past the end. It is found again, and it is in its place while
// the path leads to it, and not to a copy or nowhere.
#[test]
fn a_file_of_the_system(rt: HostRuntime) -> Result<(), Fail> {
    let home = FilePlace::new(rt.alloc(), "outside_disks_test", "file")?;
    let file = open_file(&rt, &home)?;
    let mut disk = FileDisk::new(&rt, home, file);
    assert!(rt; has(&mut disk, 0, b"\0\0\0\0\0\0"));
    assert!(rt; fs::metadata(&rt, "outside_disks_test").is_err());
    assert!(rt; write_and_read(&mut disk, 3, b"x") == Ok(*b"x\0"));
    assert!(rt; has(&mut disk, 4, b"\0\0\0x\0\0"));

    let home = disk.close();
    let file = open_file(&rt, &home)?;
    let mut found = FileDisk::new(&rt, home, file);
    assert!(rt; has(&mut found, 4, b"\0\0\0x\0\0"));
    assert!(rt; found.fault_count() == 0);
    assert!(rt; found.is_in_place() == Ok(()));
    fs::rename(&rt, "outside_disks_test/file", "outside_disks_test/moved")?;
    assert!(rt; found.is_in_place() == Err(Failed));
    let _ = fs::copy(&rt, "outside_disks_test/moved", "outside_disks_test/file")?;
    assert!(rt; found.is_in_place() == Err(Failed));
    fs::rename(&rt, "outside_disks_test/moved", "outside_disks_test/file")?;
    assert!(rt; found.is_in_place() == Ok(()) && found.fault_count() == 2);
    fs::remove_dir_all(&rt, "outside_disks_test")?;
    Ok(())
}

// What is there and can't be opened is a fault, and so is a first write that can't make its file.
#[test]
fn no_file_of_the_system(rt: HostRuntime) -> Result<(), Fail> {
    fs::create_dir_all(&rt, "outside_disks_none")?;
    let folder = FilePlace::new(rt.alloc(), "outside_disks_none", "")?;
    assert!(rt; open_file(&rt, &folder).is_err());
    let home = FilePlace::new(rt.alloc(), "outside_disks_none", "none/file")?;
    let file = open_file(&rt, &home)?;
    let mut nowhere = FileDisk::new(&rt, home, file);
    assert!(rt; write_and_read(&mut nowhere, 0, b"x") == Err(Failed));
    assert!(rt; nowhere.fault_count() == 1);
    fs::remove_dir_all(&rt, "outside_disks_none")?;
    Ok(())
}

fn disk_at<'a, R: rt::Files<File = fs::File>>(
    rt: &'a R,
    alloc: Global,
    folder: &str,
    name: &str,
) -> Result<FileDisk<'a, R>, Fail> {
    let home = FilePlace::new(alloc, folder, name)?;
    let file = open_file(rt, &home)?;
    Ok(FileDisk::new(rt, home, file))
}

// A device as a disk. It isn't locked: other processes have it, too.
fn device_at<'a, R: rt::Files<File = fs::File>>(
    rt: &'a R,
    alloc: Global,
    path: &str,
) -> Result<FileDisk<'a, R>, Fail> {
    let home = FilePlace::new(alloc, "/dev", "none")?;
    let device = fs::OpenOptions::new()
        .read(true)
        .write(true)
        .open(rt, path)?;
    Ok(FileDisk::new(rt, home, Some(device)))
}

// What the system refuses is a fault, and counts: a write to a full device, and the sync of one that can't be synced.
#[test]
fn devices_that_refuse(rt: HostRuntime) -> Result<(), Fail> {
    let mut full = device_at(&rt, rt.alloc(), "/dev/full")?;
    assert!(rt; full.write_at(0, b"x") == Err(Failed));
    assert!(rt; full.fault_count() == 1);
    let mut null = device_at(&rt, rt.alloc(), "/dev/null")?;
    assert!(rt; null.sync() == Err(Failed));
    assert!(rt; null.fault_count() == 1);
    Ok(())
}

// A folder that is there is no fault, so a second file is made in it. A file that another made since the opening is one, and stays.
#[test]
fn what_is_there_at_the_first_write(rt: HostRuntime) -> Result<(), Fail> {
    fs::create_dir_all(&rt, "outside_disks_there")?;
    let mut second = disk_at(&rt, rt.alloc(), "outside_disks_there", "1.bud")?;
    assert!(rt; second.write_at(0, b"x") == Ok(()));
    let mut late = disk_at(&rt, rt.alloc(), "outside_disks_there", "2.bud")?;
    let _ = fs::create(&rt, "outside_disks_there/2.bud")?;
    assert!(rt; late.write_at(0, b"x") == Err(Failed));
    assert!(rt; fs::metadata(&rt, "outside_disks_there/2.bud")?.len() == 0);
    fs::remove_dir_all(&rt, "outside_disks_there")?;
    Ok(())
}
