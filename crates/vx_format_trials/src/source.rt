use std::alloc::{AllocError, Global};
use std::test::Fail;
use vx_source::{Said, read_source};

/// The number of lines, and the number and the reason of the first line that is refused.
fn first_refused(alloc: Global, text: &[u8]) -> Result<(u64, u64, u8), AllocError> {
    let source = read_source(alloc, text)?;
    for line in source.lines.as_slice() {
        if let Said::Refused(reason) = &line.said {
            return Ok((source.count, line.number, *reason));
        }
    }
    Ok((source.count, 0, 0))
}

#[test]
fn reads_each_form_of_line(rt: HostRuntime) -> Result<(), Fail> {
    let text = b"# a comment with any bytes \xff\r\n\
version 52\n\nclass 0021 Main java/lang/Object\nimplements A\nfield 0009 A Z\n\
field 0009 B Ljava/lang/String; string \"a \\\"b\\u0000 \xc3\xa9\"\nmethod 0401 f ()V\n\
method 0009 main ([Ljava/lang/String;)V 2 1\nL:\n\tldc string \"x y\"  \nldc_w int -5\n\
wide iinc 300 -7\nlookupswitch L -1:L 5:L\ntableswitch -2 L L\ninvokestatic interface A g ()V\n\
newarray long\nmultianewarray [[I 2\ncatch L L L any\nend";
    assert_eq!(rt; first_refused(rt.alloc(), text)?, (20, 0, 0));
    Ok(())
}
