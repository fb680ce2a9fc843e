use call_text::{ArgValue, SyntaxErr, read_statement, write_statement};
use ice_store::Text;
use std::alloc::{AllocError, Global};
use std::test::Fail;

fn place_of_fault(alloc: Global, text: &str) -> Result<Option<usize>, AllocError> {
    let text = Text::copy_of(alloc, text.as_bytes())?;
    match read_statement(alloc, &text) {
        Ok(_) => Ok(None),
        Err(SyntaxErr::Bad { at }) => Ok(Some(at)),
        Err(SyntaxErr::Memory) => Err(AllocError),
    }
}

fn is(text: &Text, expected: &str) -> bool {
    text.inner().as_slice() == expected.as_bytes()
}

#[test]
fn other_texts_are_refused_at_their_first_fault(rt: HostRuntime) -> Result<(), Fail> {
    for (text, at) in [
        ("", 0),
        (" \t\r\n", 4),
        ("CALLc.system.p()", 0),
        ("`CALL` c.system.p()", 0),
        ("CALL é.system.p()", 5),
        ("CALL `c.system.p()", 5),
        ("CALL ``.system.p()", 5),
        ("CALL c.systems.p()", 7),
        ("CALL c.`system`.p()", 7),
        ("CALL c.system.p", 15),
        ("CALL c.system.p( ", 17),
        ("CALL c.system.p(-)", 16),
        ("CALL c.system.p('abc)", 16),
        ("CALL c.system.p('a\\x')", 16),
        ("CALL c.system.p(x)", 17),
        ("CALL c.system.p(1x)", 17),
        ("CALL c.system.p(1,)", 18),
        ("CALL c.system.p(1 = 2)", 18),
        ("CALL c.system.p() x", 18),
        ("CALL c.system.p();;", 18),
        ("CALL c.system.p(map('a'))", 23),
        ("CALL c.system.p(a => 1, 2)", 24),
        ("CALL c.system.p(1, true => 2)", 24),
        ("CALL c.system.p(array(1, 'a'))", 25),
        ("CALL c.system.p(TIMESTAMP 1)", 26),
        (
            "CALL c.system.expire_snapshots('/w/t', retain_last => 1)",
            39,
        ),
        (
            "CALL c.system.p(1234567890123456789012345678901234567890)",
            55,
        ),
    ] {
        assert_eq!(rt; place_of_fault(rt.alloc(), text)?, Some(at), "{text}");
    }
    Ok(())
}

#[test]
fn statements_are_read_and_written(rt: HostRuntime) -> Result<(), Fail> {
    for (text, written) in [
        (
            "CALL hive_prod.system.expire_snapshots('/w/t', TIMESTAMP '2024-06-30 00:00:00.000', 100)",
            "CALL hive_prod.system.expire_snapshots('/w/t', TIMESTAMP '2024-06-30 00:00:00.000', 100)",
        ),
        (
            "\tcall `a b` . System\r\n. `x` ( ) ; ",
            "CALL `a b`.system.x()",
        ),
        ("CALL call.system.`1`()", "CALL call.system.`1`()"),
        (
            "CALL c.system.p('s',-1L,true,False,null,timestamp \"t\",MAP('a','b',\"c\",'d'),ARRAY(1,02l))",
            "CALL c.system.p('s', -1L, TRUE, FALSE, NULL, TIMESTAMP 't', map('a', 'b', 'c', 'd'), array(1, 02l))",
        ),
        (
            "CALL c.system.p(TRUE => 1, `x` => null, `a-b`=>map(), _1 => array());",
            "CALL c.system.p(TRUE => 1, x => NULL, `a-b` => map(), _1 => array())",
        ),
        (
            "CALL c.system.p(\"it's\", 'it\\'s', 'say \\\"a\\\"', \"\\\\ \\n \\t\", '\n\t')",
            "CALL c.system.p('it\\'s', 'it\\'s', 'say \"a\"', '\\\\ \\n \\t', '\\n\\t')",
        ),
        (
            "CALL c.system.p(-123456789012345678901234567890123456789L)",
            "CALL c.system.p(-123456789012345678901234567890123456789L)",
        ),
    ] {
        let call = read_statement(rt.alloc(), &Text::copy_of(rt.alloc(), text.as_bytes())?)?;
        let again = write_statement(rt.alloc(), &call)?;
        assert!(rt; is(&again, written), "{text}");
    }
    Ok(())
}

#[test]
fn names_and_contents_are_kept(rt: HostRuntime) -> Result<(), Fail> {
    let text = b"CALL `my cat`.system.Expire(`Older Than` => '\\'\\\"\\\\\\n\\t')";
    let call = read_statement(rt.alloc(), &Text::copy_of(rt.alloc(), text)?)?;
    assert!(rt; is(&call.catalog, "my cat"));
    assert!(rt; is(&call.procedure, "Expire"));
    assert_eq!(rt; call.args.len(), 1);
    let arg = &call.args.inner()[0];
    assert!(rt;
        match &arg.name {
            Some(name) => is(name, "Older Than"),
            None => false,
        }
    );
    assert!(rt;
        match &arg.value {
            ArgValue::Str(content) => is(content, "'\"\\\n\t"),
            _ => false,
        }
    );
    Ok(())
}
