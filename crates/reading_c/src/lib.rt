// The function of `reading` under its name in C, for the tests on damaged objects.
#![tactic(auto)]

ghost use Rattle.std.specs.Prelude.{length};
ghost use Rattle.reading.specs.Told.{Told};

#[unsafe(no_mangle)]
pub extern "C" fn reading_load(
    file: &[u8],
    name: &[u8],
    bare: &mut [u8],
    program: &mut [u8],
    answer: &mut [u64],
) -> u64
    ensures { Told (length file.now) (length program.old) answer.old answer.new result }
{
    reading::reading_load(file, name, bare, program, answer)
}
