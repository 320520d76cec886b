//! The classes of the two roles.

ghost use Rattle.std.specs.Prelude.{◌≡◌, ◌++◌, OnOk, IfOk, string_bytes};
ghost use Rattle.mg_load.specs.Workload.{round, client, group, server};

use mg_text::{Bytes, Memory};
use std::alloc::Global;

const CLIENT_HEAD: &str = "public class AMain {
    public static void main(String[] args) {
        ARole a = new ARole();
        int t = 0;
";

const CLIENT_END: &str = "        a.send_stopToB();
        System.out.println(t);
    }
}
";

const SERVER_HEAD: &str = "public class BMain {
    public static void main(String[] args) {
        BRole b = new BRole();
        int sum = 0;
        loop: do {
            switch (b.receive_BChoice1LabelFromA()) {
";

const SERVER_END: &str = "                case stop:
                    b.receive_stopFromA();
                    break loop;
            }
        } while (true);
    }
}
";

/// The class of the role that chooses, which takes these branches one after another.
pub(crate) fn client(alloc: Global, picks: &[u32]) -> Result<Bytes, Memory>
    ensures { IfOk result (λ b. b ≡ client picks.now) }
{
    let mut out = String::from_str(alloc, CLIENT_HEAD)?;
    for (at, pick) in picks.iter().enumerate() {
        push_round(&mut out, at + 1, *pick)?;
    }
    out.push_str(CLIENT_END)?;
    Bytes::of(alloc, out.as_bytes())
}

// Appends one round: its number is sent by the branch that is taken, and what is answered is kept.
fn push_round(out: &mut String, number: usize, pick: u32) -> Result<(), Memory>
    ensures { OnOk result (string_bytes out.new ≡ string_bytes out.old ++ round number pick) }
{
    write!(
        out,
        "        a.send_m{pick}IntToB({number});\n        t = a.receive_r{pick}IntFromB();\n"
    )?;
    Ok(())
}

/// The class of the role that answers, with so many branches.
pub(crate) fn server(alloc: Global, n: u32) -> Result<Bytes, Memory>
    ensures { IfOk result (λ b. b ≡ server n) }
{
    let mut out = String::from_str(alloc, SERVER_HEAD)?;
    for number in 0..n {
        push_group(&mut out, number)?;
    }
    out.push_str(SERVER_END)?;
    Bytes::of(alloc, out.as_bytes())
}

// Appends what is done at the branch of a number: what came is added, and the sum is answered.
fn push_group(out: &mut String, number: u32) -> Result<(), Memory>
    ensures { OnOk result (string_bytes out.new ≡ string_bytes out.old ++ group number) }
{
    write!(
        out,
        "                case m{number}:
                    sum = sum + b.receive_m{number}IntFromA();
                    b.send_r{number}IntToA(sum);
                    continue loop;
"
    )?;
    Ok(())
}
