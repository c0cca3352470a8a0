use crate::command::{Command, EngineName, LogCommand, ModeName};
use crate::line::parse;
use crate::reply::Reply;
use std::test::Fail;

#[test]
fn takes_each_letter(rt: HostRuntime) -> Result<(), Fail> {
    let Some(Command::New(new)) = parse(b"N\t1\tK\tC\t0064\t00ff1a\t") else {
        return Err(Fail::from("a new log"));
    };
    assert_eq!(rt; (new.variant, new.blocks), (1, 64));
    assert_eq!(rt; new.engine, EngineName::Packed);
    assert_eq!(rt; new.mode, ModeName::Cbc);
    assert_eq!(rt; new.key.as_slice(), [0, 255, 26].as_slice());
    assert_eq!(rt; new.start.as_slice(), [].as_slice());
    assert!(rt;
        matches!(
            parse(b"A\t00"),
            Some(Command::Log(LogCommand::Append { .. }))
        )
    );
    assert!(rt;
        matches!(
            parse(b"M\t3\t00"),
            Some(Command::Log(LogCommand::Amend { index: 3, .. }))
        )
    );
    assert!(rt;
        matches!(
            parse(b"C\t99999"),
            Some(Command::Log(LogCommand::Cut { count: 99999 }))
        )
    );
    assert!(rt;
        matches!(
            parse(b"R\t0"),
            Some(Command::Log(LogCommand::Read { index: 0 }))
        )
    );
    assert!(rt;
        matches!(
            parse(b"S\t7"),
            Some(Command::Log(LogCommand::Show { index: 7 }))
        )
    );
    Ok(())
}

#[test]
fn refuses_what_has_the_wrong_shape(rt: HostRuntime) {
    assert!(rt; parse(b"").is_none());
    assert!(rt; parse(b"A").is_none());
    assert!(rt; parse(b"X\t1").is_none());
    assert!(rt; parse(b"R\t1\t").is_none(), "a field more");
    assert!(rt; parse(b"R\t100000").is_none());
    assert!(rt; parse(b"R\t1\r").is_none());
    assert!(rt; parse(b"A\tFF").is_none());
    assert!(rt; parse(b"A\tf").is_none());
    assert!(rt; parse(&[b'A'; 201]).is_none());
}

#[test]
fn writes_each_answer(rt: HostRuntime) -> Result<(), Fail> {
    assert_eq!(rt; Reply::number(0).as_slice(), b"ok\t0\n".as_slice());
    assert_eq!(rt;
        Reply::number(u64::MAX).as_slice(),
        b"ok\t18446744073709551615\n".as_slice()
    );
    let block = Reply::block(&[0, 171, 255]).ok_or("a block")?;
    assert_eq!(rt; block.as_slice(), b"ok\t00abff\n".as_slice());
    assert!(rt; Reply::block(&[0; 33]).is_none());
    assert_eq!(rt;
        Reply::refusal(12, 2).as_slice(),
        b"no\t12\tkey\t2\n".as_slice()
    );
    assert_eq!(rt;
        Reply::refusal(3, 9).as_slice(),
        b"no\t3\tlog\t9\n".as_slice()
    );
    assert_eq!(rt;
        Reply::refusal(1, 10).as_slice(),
        b"no\t1\tline\t10\n".as_slice()
    );
    Ok(())
}
