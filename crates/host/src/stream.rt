// The request stream for a host: a whole run over records that the host has read, on memory that it lends, as the program `stream` does it.
ghost use Rattle.std.specs.Prelude.{◌≡◌};
ghost use Rattle.request_run.specs.Run.{run_out};
ghost use Rattle.host_replies.specs.Replies.{told, area_answer};

use host_replies::CallAnswer;

// The value is how many bytes of `lines` are written.
#[unsafe(no_mangle)]
pub extern "C" fn stonespry_run(records: &[u8], mem: &mut [u64], lines: &mut [u8]) -> CallAnswer
    ensures { record { reply = record { reply = result; area = lines.new }; memory = mem.new }
        ≡ told area_answer (run_out records.now mem.old lines.old) }
{
    request_run::run(records, mem, lines).into()
}
