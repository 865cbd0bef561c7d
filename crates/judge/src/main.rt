// Runs the compiled reader and checker on document 01's P9 and P10 and some other view files, and prints each verdict: number, place, i, j.
// What can't be printed is left out.
#![tactic(auto)]

// The view files that are judged.
const FILES: [&[u8]; 10] = [
    // views 1:{1,4}, 2:{1,2,3,4}, 3:{3,4}, n = 4, values agreeing: 21 for 1 and 3
    b"MN\x04VW\x01\x09\x00\x00\x00\x0a\x00\x00\x00(\x00\x00\x00\
        VW\x02\x0f\x00\x00\x00\x0a\x00\x00\x00\x14\x00\x00\x00\x1e\x00\x00\x00(\x00\x00\x00\
        VW\x03\x0c\x00\x00\x00\x1e\x00\x00\x00(\x00\x00\x00",
    // views 1:{1,2}, 2:{1,2,3}, n = 3, values agreeing: 22 for 1 and 2
    b"MN\x03VW\x01\x03\x00\x00\x00\x0a\x00\x00\x00\x14\x00\x00\x00VW\x02\x07\x00\x00\x00\x0a\x00\x00\x00\x14\x00\x00\x00\x1e\x00\x00\x00",
    // no views at all is accepted
    b"MN\x05",
    // an empty view lacks its own process: 20 for 3
    b"MN\x05VW\x03\x00\x00\x00\x00",
    // one process, different values: 23 for 1 and 2
    b"MN\x02VW\x01\x03\x00\x00\x00\x07\x00\x00\x00\x09\x00\x00\x00VW\x02\x03\x00\x00\x00\x07\x00\x00\x00\x08\x00\x00\x00",
    // views 1:{1,2,3}, 2:{1,2,4}, values agreeing: they see each other, and 21 comes before 22
    b"MN\x04VW\x01\x07\x00\x00\x00\x01\x00\x00\x00\x02\x00\x00\x00\x03\x00\x00\x00VW\x02\x0b\x00\x00\x00\x01\x00\x00\x00\x02\x00\x00\x00\x04\x00\x00\x00",
    // views 31:{31,32}, 32:{31,32}, different values of 32: 23 for 31 and 32
    b"MN\x20VW\x1f\x00\x00\x00\xc0\x01\x00\x00\x00\x02\x00\x00\x00VW\x20\x00\x00\x00\xc0\x01\x00\x00\x00\x03\x00\x00\x00",
    // lists that nest
    b"MN\x02VW\x01\x01\x00\x00\x00\x07\x00\x00\x00VW\x02\x03\x00\x00\x00\x07\x00\x00\x00\x09\x00\x00\x00",
    // a second record cut off after one byte of its mark: 11 at the record
    b"MN\x02VW\x01\x01\x00\x00\x00\x07\x00\x00\x00V",
    // the last value cut off: 24 where the file ends
    b"MN\x02VW\x01\x01\x00\x00\x00\x07\x00\x00",
];

fn main(rt: HostRuntime) {
    for file in FILES {
        let v = checker::verdict(file);
        // a Display beside the type would be a public impl with a contract and edits, for two programs
        let _ = println!(rt; "verdict {} {} {} {}", v.number, v.place, v.i, v.j);
    }
}
