// Chart files with the output that the format gives them.
use chart_file::run;
use std::alloc::{AllocError, Global};
use std::process::Abort;
use std::test::Fail;

// A buffer longer than each output here, of which the rest must stay.
fn prints(rt: &impl Abort, input: &[u8], expected: &[u8]) -> Result<(), Fail> {
    let mut out = [b'#'; 512];
    assert_eq!(rt; run(input, &mut out), Some(expected.len()));
    assert!(rt; expected.len() < 512);
    assert!(rt; &out[0..expected.len()] == expected);
    assert!(rt; out[expected.len()] == b'#');
    Ok(())
}

#[test]
fn nodes_come_and_go(rt: HostRuntime) -> Result<(), Fail> {
    prints(
        &rt,
        b"chart,square\nN,40\nN,41\nR,0\nN,42\nX\nN,007\n",
        b"id,0\nid,1\nwas,40\nid,0\nno,6,1,22\nno,7,2,24\nnode,0,42\nnode,1,41\nend,2,0\n",
    )?;
    prints(
        &rt,
        b"chart,triangle\nN,0\nN,65535\nR,1\nR,1\nR,255\nC\nN,7\nC\nR,0",
        b"id,0\nid,1\nwas,65535\nno,5,0,4\nno,6,0,4\ndone\nid,0\ndone\nno,10,0,4\nend,0,0\n",
    )?;
    // The id that was stacked last is used first.
    prints(
        &rt,
        b"chart,square\nN,1\nN,2\nN,3\nR,0\nR,1\nN,4\nN,5\nN,6\n",
        b"id,0\nid,1\nid,2\nwas,1\nwas,2\nid,1\nid,0\nid,3\nnode,0,5\nnode,1,4\nnode,2,3\nnode,3,6\nend,4,0\n",
    )?;
    // The id just below the bound is not stacked: 0 is used before 2.
    prints(
        &rt,
        b"chart,square\nN,1\nN,2\nN,3\nR,0\nR,2\nN,4\nN,5\n",
        b"id,0\nid,1\nid,2\nwas,1\nwas,3\nid,0\nid,2\nnode,0,4\nnode,1,2\nnode,2,5\nend,3,0\n",
    )
}

#[test]
fn the_first_line_names_the_kind(rt: HostRuntime) -> Result<(), Fail> {
    prints(&rt, b"", b"no,1,1,25\n")?;
    prints(&rt, b"\n", b"no,1,1,25\n")?;
    prints(&rt, b"\nchart,square\n", b"no,1,1,25\n")?;
    prints(&rt, b"chart,square", b"end,0,0\n")?;
    prints(&rt, b"chart,triangle\n", b"end,0,0\n")?;
    prints(&rt, b"chart,Square\nN,1\n", b"no,1,1,25\n")?;
    prints(&rt, b"chart,square\r\nN,1\n", b"no,1,1,25\n")?;
    prints(&rt, b"chart,square \n", b"no,1,1,25\n")?;
    prints(
        &rt,
        b"chart,squarechart,squarechart,squarechart,square\n",
        b"no,1,1,25\n",
    )
}

#[test]
fn the_letter_comes_before_the_count_and_the_count_before_numbers(
    rt: HostRuntime,
) -> Result<(), Fail> {
    prints(
        &rt,
        b"chart,square\nN\nN,\nN,x,y\nC,\nR,256\nNN,1\n,N\nn,1\n\n \nU,0,1,5\n",
        b"no,2,2,23\nno,3,2,24\nno,4,3,23\nno,5,2,23\nno,6,2,24\nno,7,1,22\nno,8,1,22\nno,9,1,22\nno,10,1,22\nno,11,1,22\nno,12,1,22\nend,0,0\n",
    )?;
    prints(
        &rt,
        b"chart,square\nN,65536\nN,-1\nN,-0\nN,00\nN,+1\nN,-\nN,1 \nN,99999999999999999999\nR,-0\n",
        b"no,2,2,24\nno,3,2,24\nno,4,2,24\nno,5,2,24\nno,6,2,24\nno,7,2,24\nno,8,2,24\nno,9,2,24\nno,10,2,24\nend,0,0\n",
    )?;
    prints(
        &rt,
        b"chart,square\nN,1\r\nN,\0\n\xff,1\nN,\xff\nC\r\nN,3\n",
        b"no,2,2,24\nno,3,2,24\nno,4,1,22\nno,5,2,24\nno,6,1,22\nid,0\nnode,0,3\nend,1,0\n",
    )
}

#[test]
fn a_line_of_40_bytes_is_read(rt: HostRuntime) -> Result<(), Fail> {
    prints(
        &rt,
        b"chart,square\nN,99999999999999999999999999999999999999\nN,999999999999999999999999999999999999999\nN,5\n",
        b"no,2,2,24\nno,3,1,21\nid,0\nnode,0,5\nend,1,0\n",
    )?;
    prints(
        &rt,
        b"chart,square\nN,999999999999999999999999999999999999999",
        b"no,2,1,21\nend,0,0\n",
    )
}

// A chart file of `len` bytes whose second line is too long.
fn one_long_line(heap: Global, len: usize) -> Result<Vec<u8>, AllocError> {
    let mut input = b"chart,square\n".to_vec(heap)?;
    input.resize(len, b'x')?;
    Ok(input)
}

// A line of 60,000 bytes, and inputs at the limit: 65,536 bytes are read.
#[test]
fn long_inputs_are_answered(rt: HostRuntime) -> Result<(), Fail> {
    let heap = rt.alloc();
    prints(&rt, &one_long_line(heap, 60013)?, b"no,2,1,21\nend,0,0\n")?;
    prints(&rt, &one_long_line(heap, 65536)?, b"no,2,1,21\nend,0,0\n")?;
    let mut out = [b'#'; 4];
    assert_eq!(rt; run(&one_long_line(heap, 65537)?, &mut out), None);
    assert_eq!(rt; out, *b"####");
    Ok(())
}

#[test]
fn a_short_buffer_holds_the_front(rt: HostRuntime) {
    let mut none = [];
    assert_eq!(rt; run(b"chart,square\nN,1\n", &mut none), Some(22));
    let mut short = [b'#'; 21];
    assert_eq!(rt; run(b"chart,square\nN,1\n", &mut short), Some(22));
    assert_eq!(rt; short, *b"id,0\nnode,0,1\nend,1,0");
    let mut exact = [b'#'; 22];
    assert_eq!(rt; run(b"chart,square\nN,1\n", &mut exact), Some(22));
    assert_eq!(rt; exact, *b"id,0\nnode,0,1\nend,1,0\n");
}
