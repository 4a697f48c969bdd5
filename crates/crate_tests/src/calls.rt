//! Public calls that no program makes, each once, while there is memory.

use aggregations::Groups;
use batch_flow::Batch;
use bit_words::Bits;
use fact_versions::{KEYS_IN_A_VERSION, Version};
use filter_order::Order;
use frame_pool::Pool;
use script_reader::take_statement;
use star_parser::{parse, print};
use star_plan::{Answer, Cell, ChoiceList, Item, ItemList, PlaceList, StarQuery};
use star_values::{
    ByteText, CodeColumns, IntegerColumns, ListOf, ListWithRoom, NoMemory, Row, SmallText, Value,
    lists_may_be_sent, lists_may_be_shared,
};
use std::alloc::Global;
use std::hash::RandomState;
use std::test::Fail;

/// Statements as they are printed.
const PRINTED: &str = "wait
dimension store ( id int key , city text )
fact sales ( store_id int references store , units int )
load store header
delete from sales where units <> 7
select min ( a ) , count ( * ) , t . d from t group by t . d , e
select a from t where ( a = 1 or b = 2 ) and c = 3
select a from t where not ( a = 1 or not not b = 2 )
select a from t where not a in ( 1 , 'It''s' )
select a from t where a between 'a' and 'b' or t . b = c
";

/// The line that is printed of the statement that a line is.
fn printed(alloc: Global, line: &str) -> Result<ByteText, Fail> {
    let ast = parse(alloc, line)?;
    Ok(print(alloc, &ast)?)
}

#[test]
fn statements_are_printed(rt: HostRuntime) -> Result<(), Fail> {
    for line in PRINTED.lines() {
        assert!(rt;
            printed(rt.alloc(), line)?.as_bytes() == line.as_bytes(),
            "at {line}"
        );
    }
    Ok(())
}

#[test]
fn a_statement_is_taken_from_a_script(rt: HostRuntime) -> Result<(), Fail> {
    let Some(taken) = take_statement(rt.alloc(), b"wait\r\n-- no more", true)? else {
        return Err("a statement".into());
    };
    assert!(rt; taken.statement.line.as_bytes() == b"wait".as_slice());
    assert_eq!(rt; taken.len, 6);
    Ok(())
}

#[test]
fn lists_are_written_and_compared(rt: HostRuntime) -> Result<(), Fail> {
    let mut list: ListOf<u8> = ListOf::from(vec![in rt.alloc(); 3, 1]?);
    let other = ListOf::from(vec![in rt.alloc(); 3, 2]?);
    assert!(rt; list != other);
    if let Some(member) = list.get_mut(1) {
        *member = 2;
    }
    assert!(rt; list == other);
    let mut table: ListWithRoom<u8> = ListWithRoom::new(rt.alloc());
    table.push(3)?;
    assert_eq!(rt; table.as_slice(), [3].as_slice());
    Ok(())
}

/// The answer of groups that took a row.
fn count_of_one(alloc: Global, hash_keys: RandomState) -> Result<Answer, NoMemory> {
    let items = vec![in alloc; Item::CountAll]?;
    let query = StarQuery {
        fact: None,
        choices: ChoiceList::new(alloc),
        groups: PlaceList::new(alloc),
        items: ItemList::from(items),
    };
    let mut groups = Groups::new(alloc, hash_keys, &query)?;
    let version = Version {
        row: Row::from(Vec::new(alloc)),
        keys: [0; KEYS_IN_A_VERSION],
        begin: 1,
        end: 0,
    };
    groups.fold(&version, &[])?;
    groups.finish()
}

#[test]
fn a_row_is_folded_by_itself(rt: HostRuntime) -> Result<(), Fail> {
    let cells = ListOf::from(vec![in rt.alloc(); Cell::Full(Value::Int(1))]?);
    let wanted = Answer::Rows(ListOf::from(vec![in rt.alloc(); cells]?));
    assert!(rt; count_of_one(rt.alloc(), RandomState::new(&rt)?)? == wanted);
    Ok(())
}

#[test]
fn numbers_of_a_row_stand_in_columns(rt: HostRuntime) -> Result<(), Fail> {
    let text = Value::Str(SmallText::from_bytes(rt.alloc(), b"a")?);
    let row = Row::from(vec![in rt.alloc(); Value::Int(5), text]?);
    let mut integers = IntegerColumns::new(rt.alloc());
    integers.append(0, &row)?;
    assert_eq!(rt; integers.column(0), [5].as_slice());
    let mut codes = CodeColumns::new(rt.alloc());
    codes.append(0, &row)?;
    // The byte of `a` as a digit to the base 256, a one behind it, four times.
    assert_eq!(rt; codes.column(1), [1412].as_slice());
    Ok(())
}

fn is_sent<T: Send>() {}

fn is_shared<T: Sync>() {}

#[test]
fn sets_frames_and_lists_cross_threads(_rt: HostRuntime) {
    is_sent::<Bits<1>>();
    is_shared::<Bits<1>>();
    is_sent::<Order>();
    is_shared::<Order>();
    is_sent::<Batch>();
    is_sent::<Pool>();
    lists_may_be_sent::<u8>();
    lists_may_be_shared::<u8>();
}
