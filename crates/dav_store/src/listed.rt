//! The first bodies of the store and of the list of locks, which walk one list in each call. The same calls are made of
//! them and of `MemFs` and `MemLs`, and each answer is the same.
//!
//! A row is as in the tests of rows, without its answer.
mod files;
mod locks;

use crate::asserting::same;
use crate::memfs::tests as store_rows;
use crate::memls::{MemLs, tests as lock_rows};
use dav_core::errors::FsResult;
use files::ListedFs;
use locks::ListedLs;
use std::alloc::Global;
use std::test::Fail;

const STORE_CALLS: &str = "\
mkdir /a 1
mkdir /a/b 2
mkdir /a/b/c 3
mkdir /a/b 4
mkdir /x/y 4
open /a/f read,create,write 1
write one 6
told
set /a/f foo v
set /a/f bar w
set /a bar w
open /a/b/g read,create,write 7
write two 8
seek start 1
seek end -1
seek here -9
write 22 8
flush
bytes /a/b/g
list /a
entry 0
entry 1
properties /a/f
property /a/f foo v
open /a read 8
rename /a/b /d 9
write three 10
bytes /d/g
list /
list /a/f
rename /d /d/e 11
rename /a /d 11
copy /a/f /d/g 12
copy /a/f /d/h 13
copy /d /e 13
copy /a/f /a/f 13
properties /d/h
unset /d/h foo
names /d/h
property /d/h foo v
open /d/h read,write 14
write four 15
rename /d/h /d/g 16
write five 17
told
list /d
remove /d/g 18
flush
seek start 0
told
write six 19
remove /a 19
rmdir /a/f 19
rmdir /d 20
rmdir /d/c 21
rmdir /d 22
entry 0
rename /a /g 23
copy /g/f /g/h 24
open /g/f new,write 25
open /g/f read,write 25
write seven 26
mkdir /a 27
rename /g /a 28
write eight 29
list /
list /a
remove /a/f 30
rename / /r 31
rmdir / 31
remove /a/h 32
list /a
metadata /a/h
open /t read,write,create 253402300799
write one 253402300799
told
open /t read,append 33
buffer two 34
told
seek start 1
write x 35
bytes /t
open /t write,truncate 36
told
bytes /t
buffer four 37
seek start 2147483647
write x 38
seek start 2147483646
seek end 2
buffer y 39
bytes /t
open /t truncate,append 40
write z 41
bytes /t
open / write,truncate 42
open /t new,write,truncate 43
open /u append 44
open /u new,append,truncate 45
buffer u 46
metadata /u
open /t read 47
write no 48
told
";

const LOCK_CALLS: &str = "\
lock /a/b exclusive,infinite,timed t1 anna
lock /a exclusive,infinite,timed t3 anna
lock /a exclusive,timed t2 anna
check /a/b/c ben
check /a/b/c anna
check /a anna infinite
refresh /a/b/c t1 30
refresh /a t1
refresh /a t2
lock /d shared t4 anna
lock /d shared t5 ben
lock /d exclusive t6 ben
lock / shared,infinite t6 ben
lock /d/g shared,infinite t1 ben
lock / shared t7 ben
check /d anna
check /d/g ben
check /d/g/x anna
check / anna
delete /d/g
unlock /d t1
unlock /d t5
unlock /d t5
unlock /a/b t2
delete /a
lock /a/b exclusive t8 ben
check /a anna infinite
delete /
";

const PATHS: [&str; 9] = [
    "/", "/a", "/a/f", "/a/h", "/a/b/c", "/d", "/d/g", "/g", "/g/f",
];

// An answer as text.
fn told(alloc: Global, answer: FsResult<String>) -> Result<String, Fail> {
    match answer {
        Ok(told) => Ok(told),
        Err(e) => Ok(format!(in alloc; "{e}")?),
    }
}

#[test]
fn answer_as_lists_do(rt: HostRuntime) -> Result<(), Fail> {
    let alloc = rt.alloc();
    let (mut listed, mut played) = (ListedFs::new(alloc)?, store_rows::begun(alloc, 1)?);
    for line in STORE_CALLS.lines() {
        let row = store_rows::row(line);
        let wanted = told(alloc, listed.play(alloc, row))?;
        same(&rt, &wanted, &told(alloc, played.play(alloc, row))?);
        for path in PATHS {
            let asked = ["metadata", path, "", ""];
            let wanted = told(alloc, listed.play(alloc, asked))?;
            same(&rt, &wanted, &told(alloc, played.play(alloc, asked))?);
        }
    }
    let (mut listed, mut played) = (ListedLs::new(alloc), MemLs::new(alloc)?);
    for line in LOCK_CALLS.lines() {
        let row = lock_rows::row(line);
        let wanted = listed.play(alloc, row)?;
        same(&rt, &wanted, &lock_rows::play(alloc, &mut played, row)?);
        for path in PATHS {
            let asked = ["discover", path, "", "", ""];
            let wanted = listed.play(alloc, asked)?;
            same(&rt, &wanted, &lock_rows::play(alloc, &mut played, asked)?);
        }
    }
    Ok(())
}
