// What C calls: the static library over the crate `page`.
#![tactic(auto)]

ghost use Rattle.std.specs.Prelude.{◌≡◌};
ghost use Rattle.page.specs.Build.{built};
ghost use Rattle.page.specs.Printed.{Builds, Short};

// The build of `page` again, since no crate may stand on a static library. A slice crosses as a pointer and then its length.
#[unsafe(no_mangle)]
pub extern "C" fn vcpu32_build(
    mode: u32,
    steps: u32,
    image: &[u8],
    memory: &mut [u8],
    report: &mut [u8],
) -> u64
    ensures answer { result ≡ (built mode steps image.now memory.old report.old).answer }
    ensures memory { memory.new ≡ (built mode steps image.now memory.old report.old).memory }
    ensures report { report.new ≡ (built mode steps image.now memory.old report.old).report }
    ensures short { Short result }
    ensures builds { Builds mode steps image.now memory.old report.old result memory.new report.new }
{
    page::build::vcpu32_build(mode, steps, image, memory, report)
}
