//! The lines of the made workload, in the order of the script.
ghost use Rattle.std.specs.Prelude.{◌≡◌, ◌<◌, ◌+◌, ◌^◌, OnOk};
ghost use Rattle.make_load.specs.Script.{ask, ask_brands, ask_channels, ask_months, ask_regions, ask_units, block, day, days, delete_behind, dimensions, draw_part, named_record, named_rows, queries, sale, sales, script, share, tables};

use crate::draft::Draft;
use star_values::NoMemory;

/// The whole script: the tables, the dimensions, twelve blocks and a `wait`.
#[tactic(auto, unfolding(crate::specs::Script::script))]
pub(crate) fn script(draft: &mut Draft, rows: u32) -> Result<(), NoMemory>
    ensures { OnOk result (draft.new ≡ script rows draft.old) }
{
    tables(draft)?;
    dimensions(draft)?;
    for number in 0..12 {
        block(draft, rows, number)?;
    }
    draft.say(b"wait\n")
}

#[tactic(auto, unfolding(crate::specs::Script::tables))]
fn tables(draft: &mut Draft) -> Result<(), NoMemory>
    ensures { OnOk result (draft.new ≡ tables draft.old) }
{
    draft.say(b"dimension store (id int key, region text, size int)\n")?;
    draft.say(b"dimension product (id int key, brand text, cost int)\n")?;
    draft.say(b"dimension customer (id int key, city text, age int)\n")?;
    draft.say(b"dimension day (id int key, month int, weekday int)\n")?;
    draft.say(b"dimension promo (id int key, channel text, level int)\n")?;
    draft.say(
        b"fact sales (store_id int references store, product_id int references product, customer_id int references customer, day_id int references day, promo_id int references promo, units int, price int)\n",
    )
}

#[tactic(auto, unfolding(crate::specs::Script::dimensions))]
fn dimensions(draft: &mut Draft) -> Result<(), NoMemory>
    ensures { OnOk result (draft.new ≡ dimensions draft.old) }
{
    draft.say(b"load store\n")?;
    named_rows(draft, 40, b",R", 8, 0, 1000)?;
    draft.say(b"load product\n")?;
    named_rows(draft, 200, b",B", 25, 0, 500)?;
    draft.say(b"load customer\n")?;
    named_rows(draft, 500, b",C", 50, 18, 70)?;
    days(draft)?;
    draft.say(b"load promo\n")?;
    named_rows(draft, 10, b",P", 4, 0, 5)
}

/// The block of a load: so many records, each a key, a letter with a number, and a number from the
/// least on.
#[tactic(auto, unfolding(crate::specs::Script::named_rows))]
fn named_rows(
    draft: &mut Draft,
    keys: u32,
    letter: &[u8],
    names: u32,
    least: u32,
    range: u32,
) -> Result<(), NoMemory>
    requires named { 0 < names }
    requires some { 0 < range }
    requires fits { least + range < 2 ^ 32 }
    ensures { OnOk result
        (draft.new ≡ named_rows keys letter.now names least range draft.old) }
{
    for key in 0..keys {
        named_record(draft, letter, names, least, range, key)?;
    }
    draft.say(b".\n")
}

#[tactic(auto, unfolding(crate::specs::Script::named_record))]
fn named_record(
    draft: &mut Draft,
    letter: &[u8],
    names: u32,
    least: u32,
    range: u32,
    key: u32,
) -> Result<(), NoMemory>
    requires named { 0 < names }
    requires some { 0 < range }
    requires fits { least + range < 2 ^ 32 }
    ensures { OnOk result (draft.new ≡ named_record letter.now names least range key draft.old) }
{
    draft.tell(key)?;
    draft.say(letter)?;
    draft.draw(0, names)?;
    draft.say(b",")?;
    draft.draw(least, range)?;
    draft.say(b"\n")
}

#[tactic(auto, unfolding(crate::specs::Script::days))]
fn days(draft: &mut Draft) -> Result<(), NoMemory>
    ensures { OnOk result (draft.new ≡ days draft.old) }
{
    draft.say(b"load day\n")?;
    for key in 0..365 {
        day(draft, key)?;
    }
    draft.say(b".\n")
}

/// A day: its key, its month and its weekday.
#[tactic(auto, unfolding(crate::specs::Script::day))]
fn day(draft: &mut Draft, key: u32) -> Result<(), NoMemory>
    ensures { OnOk result (draft.new ≡ day key draft.old) }
{
    draft.tell(key)?;
    draft.say(b",")?;
    draft.tell(1 + key / 31)?;
    draft.say(b",")?;
    draft.tell(key % 7)?;
    draft.say(b"\n")
}

/// A block: a load of sales, the queries, and maybe the delete.
#[tactic(auto, unfolding(crate::specs::Script::block))]
fn block(draft: &mut Draft, rows: u32, number: u32) -> Result<(), NoMemory>
    ensures { OnOk result (draft.new ≡ block rows number draft.old) }
{
    sales(draft, share(rows, number))?;
    queries(draft)?;
    delete_behind(draft, number)
}

/// How many sales the load of a block has: a twelfth, and in the last block what is left.
#[tactic(auto, unfolding(crate::specs::Script::share))]
fn share(rows: u32, block: u32) -> u32
    ensures { result ≡ share rows block }
{
    if block == 11 {
        rows - 11 * (rows / 12)
    } else {
        rows / 12
    }
}

#[tactic(auto, unfolding(crate::specs::Script::sales))]
fn sales(draft: &mut Draft, count: u32) -> Result<(), NoMemory>
    ensures { OnOk result (draft.new ≡ sales count draft.old) }
{
    draft.say(b"load sales\n")?;
    for _number in 0..count {
        sale(draft)?;
    }
    draft.say(b".\n")
}

/// A sale: its five keys, its units and its price.
#[tactic(auto, unfolding(crate::specs::Script::sale))]
fn sale(draft: &mut Draft) -> Result<(), NoMemory>
    ensures { OnOk result (draft.new ≡ sale draft.old) }
{
    draw_part(draft, 40)?;
    draw_part(draft, 200)?;
    draw_part(draft, 500)?;
    draw_part(draft, 365)?;
    draw_part(draft, 10)?;
    draft.draw(1, 20)?;
    draft.say(b",")?;
    draft.draw(1, 1000)?;
    draft.say(b"\n")
}

/// A number of a sale and the comma behind it.
#[tactic(auto, unfolding(crate::specs::Script::draw_part))]
fn draw_part(draft: &mut Draft, range: u32) -> Result<(), NoMemory>
    requires { 0 < range }
    ensures { OnOk result (draft.new ≡ draw_part range draft.old) }
{
    draft.draw(0, range)?;
    draft.say(b",")
}

/// Sales are deleted behind the queries of one block.
#[tactic(auto, unfolding(crate::specs::Script::delete_behind))]
fn delete_behind(draft: &mut Draft, block: u32) -> Result<(), NoMemory>
    ensures { OnOk result (draft.new ≡ delete_behind block draft.old) }
{
    if block == 5 {
        draft.say(b"delete from sales where units = 7\n")
    } else {
        Ok(())
    }
}

/// One query of each kind.
#[tactic(auto, unfolding(crate::specs::Script::queries))]
fn queries(draft: &mut Draft) -> Result<(), NoMemory>
    ensures { OnOk result (draft.new ≡ queries draft.old) }
{
    ask_regions(draft)?;
    ask_brands(draft)?;
    ask_months(draft)?;
    ask_units(draft)?;
    ask_channels(draft)
}

/// A query with one number that is drawn.
#[tactic(auto, unfolding(crate::specs::Script::ask))]
fn ask(draft: &mut Draft, front: &[u8], least: u32, range: u32, back: &[u8]) -> Result<(), NoMemory>
    requires some { 0 < range }
    requires fits { least + range < 2 ^ 32 }
    ensures { OnOk result (draft.new ≡ ask front.now least range back.now draft.old) }
{
    draft.say(front)?;
    draft.draw(least, range)?;
    draft.say(back)
}

#[tactic(auto, unfolding(crate::specs::Script::ask_regions))]
fn ask_regions(draft: &mut Draft) -> Result<(), NoMemory>
    ensures { OnOk result (draft.new ≡ ask_regions draft.old) }
{
    ask(
        draft,
        b"select region, count(*), sum(units) from sales, store where store_id = store.id and size < ",
        0,
        1000,
        b" group by region\n",
    )
}

#[tactic(auto, unfolding(crate::specs::Script::ask_brands))]
fn ask_brands(draft: &mut Draft) -> Result<(), NoMemory>
    ensures { OnOk result (draft.new ≡ ask_brands draft.old) }
{
    ask(
        draft,
        b"select brand, sum(price), max(units) from sales, product where product_id = product.id and cost between 100 and ",
        100,
        400,
        b" group by brand\n",
    )
}

#[tactic(auto, unfolding(crate::specs::Script::ask_months))]
fn ask_months(draft: &mut Draft) -> Result<(), NoMemory>
    ensures { OnOk result (draft.new ≡ ask_months draft.old) }
{
    ask(
        draft,
        b"select month, count(*) from sales, day, customer where day_id = day.id and customer_id = customer.id and age >= ",
        18,
        70,
        b" group by month\n",
    )
}

#[tactic(auto, unfolding(crate::specs::Script::ask_units))]
fn ask_units(draft: &mut Draft) -> Result<(), NoMemory>
    ensures { OnOk result (draft.new ≡ ask_units draft.old) }
{
    ask(
        draft,
        b"select count(*), sum(units), min(price) from sales where units > ",
        0,
        20,
        b"\n",
    )
}

#[tactic(auto, unfolding(crate::specs::Script::ask_channels))]
fn ask_channels(draft: &mut Draft) -> Result<(), NoMemory>
    ensures { OnOk result (draft.new ≡ ask_channels draft.old) }
{
    ask(
        draft,
        b"select channel, region, sum(price) from sales, promo, store where promo_id = promo.id and store_id = store.id and channel in ('P0','P",
        0,
        4,
        b"') and price <= ",
    )?;
    draft.draw(1, 1000)?;
    draft.say(b" group by channel, region\n")
}
