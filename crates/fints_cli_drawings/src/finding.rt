//! What was found of a step, among findings in their order.
ghost use Rattle.std.specs.Prelude.{◌≡◌, ◌<◌, ◌≤◌, length, AllPairs};
ghost use Rattle.std.specs.List.Sorted.{IsPartitionPoint};
ghost use Rattle.fints_check_findings.specs.Findings.{IsBefore};
ghost use Rattle.fints_check_findings.specs.declared.finding.Finding.{Finding as FindingValue};
ghost use Rattle.fints_cli_drawings.specs.Picture.{found_at};

use fints_check::Finding;

// How many of them are of steps before step n.
fn count_before(findings: &[Finding], n: usize) -> usize
    requires { AllPairs IsBefore findings.now }
    ensures within { result ≤ length findings.now }
    ensures parted { IsPartitionPoint (λ (f : FindingValue). f.step < n) (λ (f : FindingValue). n ≤ f.step)
        findings.now result }
{
    findings.partition_point(|finding| (finding.step as usize) < n)
}

// How many of them are of steps up to step n.
fn count_up_to(findings: &[Finding], n: usize) -> usize
    requires { AllPairs IsBefore findings.now }
    ensures within { result ≤ length findings.now }
    ensures parted { IsPartitionPoint (λ (f : FindingValue). f.step ≤ n) (λ (f : FindingValue). n < f.step)
        findings.now result }
{
    findings.partition_point(|finding| finding.step as usize <= n)
}

/// Those of step n, which are together.
pub fn found_at(findings: &[Finding], n: usize) -> &[Finding]
    requires { AllPairs IsBefore findings.now }
    ensures { result.now ≡ found_at n findings.now }
{
    let from = count_before(findings, n);
    let to = count_up_to(findings, n);
    &findings[from..to]
}
