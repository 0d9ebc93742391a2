// Runs the edges of document 01 that speak of bucket lists, stamps and the chain walk, and writes what each gives.
#![tactic(auto)]

use std::io;
use table::{set_next, set_xmax, set_xmin};
use table_buckets::{
    ListError, canonical_buckets_bitmap, canonical_buckets_sort, stamp_precedes_snapshot,
};
use table_chain::{Snapshot, first_visible};

// A yes or a no.
fn told(rt: &impl Print, yes: bool) -> io::Result<()> {
    let word = if yes { "yes" } else { "no" };
    println!(rt; " {word}")
}

// What a kernel gives: the list, or the bad bucket.
fn list<K: FnOnce(&mut [u64]) -> Result<usize, ListError>>(
    rt: &impl Print,
    kernel: K,
) -> io::Result<()>
    requires { K.IsAlwaysCallable kernel }
{
    let mut out = [0u64; 4];
    match kernel(&mut out) {
        Ok(n) => {
            for bucket in out.iter().take(n) {
                print!(rt; " {bucket}")?;
            }
        }
        Err(ListError::Bad(bucket)) => print!(rt; " error {bucket}")?,
        Err(ListError::NoRoom) => print!(rt; " no room")?,
    }
    println!(rt)
}

// Both kernels on one list.
fn both(rt: &impl Print, input: &[u64], count: usize) -> io::Result<()> {
    list(rt, |out| canonical_buckets_sort(input, count, out))?;
    list(rt, |out| canonical_buckets_bitmap(input, count, out))
}

// The first version that a snapshot sees.
fn seen(rt: &impl Print, versions: &[u64], s: Snapshot) -> io::Result<()> {
    match first_visible(versions, 9, s, 9) {
        Some(p) => println!(rt; " {p}"),
        None => println!(rt; " none"),
    }
}

fn main(rt: HostRuntime) -> io::Result<()> {
    print!(rt; "P1 stamp 4, number 5:")?;
    told(&rt, stamp_precedes_snapshot(4, 5))?;
    print!(rt; "P2 stamp 5, number 5:")?;
    told(&rt, stamp_precedes_snapshot(5, 5))?;
    println!(rt; "P3 list 3 1 3 of 4, by both kernels:")?;
    both(&rt, &[3u64, 1, 3], 4)?;
    println!(rt; "P4 list 1 9 4 of 4:")?;
    both(&rt, &[1u64, 9, 4], 4)?;
    println!(rt; "P5 list 4095 of 4096:")?;
    both(&rt, &[4095u64], 4096)?;
    println!(rt; "P6 list 4096 of 4096:")?;
    both(&rt, &[4096u64], 4096)?;
    let mut versions = [0u64; 60];
    set_xmin(&mut versions, 9, 6);
    set_next(&mut versions, 9, 7);
    set_xmin(&mut versions, 7, 2);
    set_xmax(&mut versions, 7, 6);
    print!(rt; "P11 chain 9 to 7, xmax 6, none active:")?;
    let none = Snapshot {
        xmin: 5,
        xmax: 6,
        active: [0; 7],
        active_n: 0,
    };
    seen(&rt, &versions, none)?;
    print!(rt; "P12 the same, 2 active:")?;
    let two = Snapshot {
        xmin: 2,
        xmax: 6,
        active: [2, 0, 0, 0, 0, 0, 0],
        active_n: 1,
    };
    seen(&rt, &versions, two)?;
    print!(rt; "P12 with an xmin above 2, as no begin takes it:")?;
    let above = Snapshot { xmin: 5, ..two };
    seen(&rt, &versions, above)
}
