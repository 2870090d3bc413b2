// Lists the message on standard input: one line for each item, or one line for a refusal. Where the input cannot be read to its
// end, or the listing cannot be written, one line on standard error says so.
#![tactic(auto)]

mod input;

// Writes a message's listing to standard output.
fn list_sheet(rt: &(impl Print + Eprint), sheet: &[u8]) {
    let mut table = [0u64; 8000];
    let mut text = [0u8; 524288];
    let length = listing::list(sheet, &mut table, &mut text);
    if rt.write_all(&text[..length]).is_err() {
        let _ = eprintln!(rt; "sheetlist: the listing could not be written");
    }
}

fn main(rt: HostRuntime) {
    let mut sheet = [0u8; 32769];
    match input::read_input(&mut rt.stdin(), &mut sheet) {
        Ok(length) => list_sheet(&rt, &sheet[..length]),
        Err(_) => {
            let _ = eprintln!(rt;
                "sheetlist: the sheet could not be read to its end; nothing is listed"
            );
        }
    }
}
