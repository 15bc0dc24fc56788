// What the office's own tools link: the C entry of compile. `include/valaiyoth.h` declares it.
#![tactic(auto)]

ghost use Rattle.construction.specs.Compile.{CompilesTo};

#[unsafe(no_mangle)]
pub extern "C" fn valaiyoth_compile(text: &[u8], image: &mut [u8]) -> u64
    ensures { CompilesTo text.now image.old image.new result }
{
    match compiler::compile(text, image) {
        Ok(sizes) => sizes.bytes as u64,
        Err(r) => u64::from(r.reason.number()) * 1000000 + r.place as u64,
    }
}
