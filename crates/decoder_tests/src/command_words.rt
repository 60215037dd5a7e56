//! Words that no row can hold because they contain blanks.

use crate::expect::same;
use scale_core::Sink;
use scale_tool::{explain, job};

#[test]
fn blanks_are_no_part_of_a_number(rt: HostRuntime) {
    let lines = [
        ["scaleview", "decode", "r", " 3", "v"].as_slice(),
        &["scaleview", "decode", "r", "3", "v", "--depth", " 2"],
    ];
    'lines: for words in lines {
        let fault = job(rt.alloc(), words).err().expect(&rt, "a fault");
        let mut out = Sink::new(Vec::new(rt.alloc()));
        let mut err = Sink::new(Vec::new(rt.alloc()));
        same(&rt, explain(fault, &mut out, &mut err), 2);
        same(&rt, out.into_inner().len(), 0);
        let reported = err.into_inner();
        same(&rt, reported.as_slice(), b"scaleview: usage\n".as_slice());
    }
}
