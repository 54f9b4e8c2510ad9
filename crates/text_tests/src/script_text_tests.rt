use disk_base::Bytes;
use script_text::*;
use std::alloc::Global;
use std::test::Fail;

// Scripts, the first line that is refused, and why.
const REFUSED: [(&str, u32, Why); 16] = [
    ("cmd 1 1 S 0000\n", 1, Why::Cdb),
    ("go\ngo\ncmd 1 1\n", 3, Why::Shape),
    ("go\r\n", 1, Why::Bytes),
    ("scan 60001\n", 1, Why::Number),
    ("cmd 1 1 S 0000000000000\n", 1, Why::Hex),
    ("disk 0 1 32 2\n", 1, Why::Disk),
    ("go\nprimary 20\n", 2, Why::Place),
    (
        "cmd 1 1 S 28000000000000000100\ncmd 1 1 S 28000000000000000100\n",
        2,
        Why::Tag,
    ),
    ("scan 60000\n", 1, Why::Later),
    ("fault 16\n", 1, Why::Later),
    ("cut now\n", 1, Why::Later),
    ("cut write 1 none 0\n", 1, Why::Later),
    ("power\n", 1, Why::Later),
    ("cmd 1 1 S 070000000000\n", 1, Why::Later),
    ("damage 16 0 1 hard add 0\n", 1, Why::Number),
    ("cut write 1 none 9479\n", 1, Why::Number),
];

#[test]
fn refusals(rt: HostRuntime) {
    for (text, line, why) in REFUSED {
        assert_eq!(rt; refusal_of(rt.alloc(), text.as_bytes()), Some((line, why)));
    }
}

fn refusal_of(alloc: Global, bytes: &[u8]) -> Option<(u32, Why)> {
    match read_script(alloc, bytes) {
        Err(ScriptFault::Refused { line, why }) => Some((line, why)),
        _ => None,
    }
}

// A script with a comment, digits of either case and no end, and as it is printed.
const READ: &str =
    "# a comment\n\ndisk 2 1 32 2\nprimary 16\ncmd 1 7 S 28000000000000000100\ncmd 2 7 O 000000000000\nabort 8 7\ndestage 600\ngo\nminutes 65535\ndamage 0 5 1 soft 255 add -127\ncmd 1 7 S 2a000000000000000100 =01ab";

const PRINTED: &str =
    "disk 2 1 32 2\nprimary 16\ncmd 1 7 S 28000000000000000100\ncmd 2 7 O 000000000000\nabort 8 7\ndestage 600\ngo\nminutes 65535\ndamage 0 5 1 soft 255 add -127\ncmd 1 7 S 2A000000000000000100 =01AB\ngo\n";

fn printed(alloc: Global, text: &str) -> Result<Bytes, Fail> {
    let script = read_script(alloc, text.as_bytes())?;
    Ok(print(alloc, &script)?)
}

#[test]
fn a_script_reads_and_prints(rt: HostRuntime) -> Result<(), Fail> {
    let text = printed(rt.alloc(), READ)?;
    assert!(rt; text.as_slice() == PRINTED.as_bytes());
    Ok(())
}

#[test]
fn a_printed_script_reads_again(rt: HostRuntime) -> Result<(), Fail> {
    let text = printed(rt.alloc(), PRINTED)?;
    assert!(rt; text.as_slice() == PRINTED.as_bytes());
    Ok(())
}

#[test]
fn four_megabytes(rt: HostRuntime) -> Result<(), Fail> {
    let alloc = rt.alloc();
    let mut comment = vec![in alloc; b'#'; 4_194_303]?;
    comment.push(b'\n')?;
    assert!(rt; read_script(alloc, comment.as_slice()).is_ok());
    Ok(())
}

#[test]
fn one_line_too_many(rt: HostRuntime) -> Result<(), Fail> {
    let alloc = rt.alloc();
    let ends = vec![in alloc; b'\n'; 65_537]?;
    let limit = Some((65_537, Why::Limit));
    assert_eq!(rt; refusal_of(alloc, ends.as_slice()), limit);
    assert!(rt; read_script(alloc, &ends[..65_536]).is_ok());
    Ok(())
}
