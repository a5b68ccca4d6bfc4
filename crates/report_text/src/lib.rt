// The report on a description text (scope, "Report program and examples"): what was read, its function and both verdicts, or the refusal.
// The lines are those of `report_lines`. Any text and any buffer may be lent: a buffer that is too short is refused and left as it was.
#![tactic(auto)]

ghost use Rattle.std.specs.Prelude.{◌≡◌, length};
ghost use Rattle.report_text.specs.Report.{refusal_number, report_told, report_text, RoomEnough};

// A buffer of so many bytes is never too short.
pub const MAX_REPORT: usize = 512;

// Why a report is not written. The scope has no refusal for it; the number is that of an answer buffer that is too short.
#[derive(Clone, Copy)]
pub enum Refusal {
    BufferTooShort,
}

impl Refusal {
    // The number of the refusal.
    pub fn number(self) -> u64
        ensures { result ≡ refusal_number self }
    {
        match self {
            Refusal::BufferTooShort => 16,
        }
    }
}

// Writes the report on a text to the start of a buffer, and gives its length.
pub fn report(text: &[u8], buffer: &mut [u8]) -> Result<usize, Refusal>
    ensures buffer_after { report_told result buffer.new ≡ report_text text.now buffer.old }
    ensures room_enough { RoomEnough result (length buffer.old) }
{
    let mut page = [0u8; MAX_REPORT];
    let length = report_lines::whole_report(&mut page, text);
    if buffer.len() < length {
        return Err(Refusal::BufferTooShort);
    }
    buffer[0..length].copy_from_slice(&page[0..length]);
    Ok(length)
}
