// Long random runs of the compiled controller: the same steps as the second model's soak takes, and digests of all that comes of
// them (docs/SOAK.md). Five numbers come on standard input, with anything between them that is no digit: the first table, how many
// tables, steps a table, after every how many steps the tables are digested, and whether (1) each step is shown.
#![tactic(auto)]

use counts::Counts;
use plan::Plan;
use run::Run;
use show::Shown;
use soak_steps::lent::Tables;
use soak_steps::table::Table;
use std::io;

mod counts;
mod plan;
mod run;
mod show;

// A table: made and filled, its steps taken and counted, digested where that is due and shown where that is asked for, and what they came
// to printed. The stream goes on from the filling to the steps.
fn one_table(rt: &impl Print, counts: &mut Counts, plan: Plan, number: u64) -> io::Result<()> {
    let table = Table::begun(number);
    let shape = table.shape;
    let mut tables = Tables::new();
    let x = tables.fill(table);
    let mut run = Run::begun(x, tables.digest());
    for _ in 0..plan.steps {
        let drawn = table.step(run.x);
        let answer = tables.ask(shape, drawn.off, drawn.step);
        counts.add(drawn, answer);
        run.answered(drawn.x, answer);
        if plan.is_due(run.number) {
            run.digested(tables.digest());
        }
        if plan.show {
            let shown = Shown {
                number: run.number,
                drawn,
                answer,
                tables: run.last,
            };
            println!(rt; "{shown}")?;
        }
    }
    // The shape by hand: printing is no word of `types`, and each program has its own text (docs/SOAK.md has this one).
    print!(rt;
        "table={number} lines={} espi={} eppi={}",
        shape.lines, shape.espi, shape.eppi
    )?;
    println!(rt; " mbis={}{run}", u32::from(shape.mbis))
}

fn main(rt: HostRuntime) -> io::Result<()> {
    let plan = Plan::read(&rt)?;
    let mut counts = Counts::new();
    for passed in 0..plan.tables {
        one_table(&rt, &mut counts, plan, plan.first.wrapping_add(passed))?;
    }
    counts.print(&rt)
}
