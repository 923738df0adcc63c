use rb_base::{Column, Event, Op, SiteId, SiteSetup, Value};
use rb_script::parse;
use std::test::Fail;

const NAME_OF_32: &str = "abcdefghijklmnopqrstuvwxyz_12345";

#[test]
fn reads_a_setup(rt: HostRuntime) -> Result<(), Fail> {
    let text = b"# a script\r\n\n\tsite A groups 2 replicas 3 limit 1048576\ntable t num\n\
        \x20table empty\r\n";
    let script = parse(rt.alloc(), text).or(Err("it is a script"))?;
    let shape = SiteSetup {
        groups: 2,
        replicas: 3,
        limit: 1048576,
    };
    assert_eq!(rt; script.setup.a, shape);
    let [t, empty] = script.setup.tables.as_slice() else {
        return Err("it has two tables".into());
    };
    assert_eq!(rt; t.name.as_slice(), b"t".as_slice());
    assert_eq!(rt; t.columns.as_slice().len(), 1);
    assert_eq!(rt; empty.name.as_slice(), b"empty".as_slice());
    Ok(())
}

#[test]
fn reads_operations(rt: HostRuntime) -> Result<(), Fail> {
    let text = b"table t num\ntable empty\ntx\tA ins t 5 7 ;  put empty 00000000000000000006";
    let script = parse(rt.alloc(), text).or(Err("it is a script"))?;
    let [event] = script.events.as_slice() else {
        return Err("it has an event".into());
    };
    let Event::Tx(SiteId::A, operations) = &event.event else {
        return Err("it is a transaction".into());
    };
    let [insert, put] = operations.as_slice() else {
        return Err("it has two operations".into());
    };
    assert!(rt; insert.op == Op::Ins && insert.table == 1 && insert.key == 5);
    assert!(rt; put.op == Op::Put && put.table == 2 && put.key == 6);
    let row = insert.row.as_ref().ok_or("an insert has a row")?;
    assert!(rt; matches!(row.values.as_slice(), [Value::Num(5), Value::Num(7)]));
    Ok(())
}

#[test]
fn reads_columns(rt: HostRuntime) -> Result<(), Fail> {
    let text = b"table t text:255 num text:0000256\ntable u text:990\ntable v num text:982\n";
    let script = parse(rt.alloc(), text).or(Err("it is a script"))?;
    let [t, u, v] = script.setup.tables.as_slice() else {
        return Err("it has three tables".into());
    };
    assert_eq!(rt;
        t.columns.as_slice(),
        [Column::Text(255), Column::Num, Column::Text(256)].as_slice()
    );
    assert_eq!(rt; u.columns.as_slice(), [Column::Text(990)].as_slice());
    assert_eq!(rt;
        v.columns.as_slice(),
        [Column::Num, Column::Text(982)].as_slice()
    );
    Ok(())
}

#[test]
fn reads_texts(rt: HostRuntime) -> Result<(), Fail> {
    let text = b"table t text:4 num text:1\ntx A ins t 5 \" ; #\" 7 \"\"";
    let script = parse(rt.alloc(), text).or(Err("it is a script"))?;
    let [event] = script.events.as_slice() else {
        return Err("it has an event".into());
    };
    let Event::Tx(SiteId::A, operations) = &event.event else {
        return Err("it is a transaction".into());
    };
    let [insert] = operations.as_slice() else {
        return Err("it has one operation".into());
    };
    let row = insert.row.as_ref().ok_or("an insert has a row")?;
    let [
        Value::Num(5),
        Value::Text(first),
        Value::Num(7),
        Value::Text(last),
    ] = row.values.as_slice()
    else {
        return Err("the row has two numbers and two texts".into());
    };
    assert_eq!(rt; first.as_slice(), b" ; #".as_slice());
    assert!(rt; last.as_slice().is_empty());
    Ok(())
}

#[test]
fn reads_events(rt: HostRuntime) -> Result<(), Fail> {
    let text = b"epoch A\n  # and on\ngcp A\ndeliver A 12\ndeliver A all\ninject A\nlog A";
    let script = parse(rt.alloc(), text).or(Err("it is a script"))?;
    let [close, gcp, deliver, all, inject, log] = script.events.as_slice() else {
        return Err("it has six events".into());
    };
    assert!(rt; close.line == 1 && gcp.line == 3 && log.line == 7);
    assert!(rt; matches!(close.event, Event::Close(SiteId::A, false)));
    assert!(rt; matches!(gcp.event, Event::Close(SiteId::A, true)));
    assert!(rt; matches!(deliver.event, Event::Deliver(SiteId::A, 12)));
    assert!(rt; matches!(all.event, Event::DeliverAll(SiteId::A)));
    assert!(rt; matches!(inject.event, Event::Inject(SiteId::A)));
    assert!(rt; matches!(log.event, Event::Log(SiteId::A)));
    Ok(())
}

#[test]
fn reads_failures(rt: HostRuntime) -> Result<(), Fail> {
    let script = parse(rt.alloc(), b"fail A 0\nrestart A 0\nresend A\ninjector A").or(Err(
        "it is a script",
    ))?;
    let [fail, restart, resend, injector] = script.events.as_slice() else {
        return Err("it has four events".into());
    };
    assert!(rt; fail.line == 1 && restart.line == 2 && resend.line == 3 && injector.line == 4);
    assert!(rt; matches!(fail.event, Event::Fail(SiteId::A, 0)));
    assert!(rt; matches!(restart.event, Event::Restart(SiteId::A, 0)));
    assert!(rt; matches!(resend.event, Event::Resend(SiteId::A)));
    assert!(rt; matches!(injector.event, Event::Injector(SiteId::A)));
    Ok(())
}

#[test]
fn reads_nothing(rt: HostRuntime) -> Result<(), Fail> {
    let script = parse(rt.alloc(), b"").or(Err("it is a script"))?;
    assert!(rt; script.setup.tables.as_slice().is_empty());
    assert!(rt; script.events.as_slice().is_empty());
    assert_eq!(rt; script.setup.a.groups, 1);
    Ok(())
}

#[test]
fn reads_the_longest_name(rt: HostRuntime) -> Result<(), Fail> {
    let text = format!(in rt.alloc(); "table {NAME_OF_32} num")?;
    let script = parse(rt.alloc(), text.as_bytes()).or(Err("it is a script"))?;
    let [table] = script.setup.tables.as_slice() else {
        return Err("it has a table".into());
    };
    assert_eq!(rt; table.name.as_slice(), NAME_OF_32.as_bytes());
    Ok(())
}
