//! The site of a soak.
ghost use Rattle.std.specs.Prelude.{◌≡◌, OnOk, flat_map};
ghost use Rattle.soak_scenarios.specs.Drafts.{with_text};
ghost use Rattle.soak_scenarios.specs.Sites.{folder_member, page_member, pages, folders, content_line, farm_lines};
ghost use Rattle.soak_scenarios.specs.Soaks.{scenario_head};

use crate::draft::ScenarioDraft;
use sp_base::Mem;
use std::alloc::Global;

const FOLDERS: [u64; 4] = [0, 1, 2, 3];

// In the byte order of their names.
const PAGES: [u64; 16] = [0, 1, 10, 11, 12, 13, 14, 15, 2, 3, 4, 5, 6, 7, 8, 9];

const PAGES_ORDER: &[u8] =
    b"\":order\":[\"p0\",\"p1\",\"p10\",\"p11\",\"p12\",\"p13\",\"p14\",\"p15\",\"p2\",\"p3\",\"p4\",\"p5\",\"p6\",\"p7\",\"p8\",\"p9\"]";

const APPS: &[u8] =
    b"{\":order\":[\"apps\",\"content\"],\"apps\":{\":order\":[\"site\"],\"site\":{\":order\":[\"page\"],\"page\":{\":order\":[\"html.html\"],\"html.html\":{\":order\":[\"jcr:content\"],\"jcr:content\":{\"jcr:data\":\"<p>${properties.n}</p>\"}}}}}";

const FARM: &[u8] = br#"# site farm
/name "dispatcher"
/farms { /site {
  /clientheaders { "*" }
  /virtualhosts { "www.example.com" "localhost" }
  /renders { /rend01 { /hostname "127.0.0.1" /port "4503" } }
  /filter {
    /0001 { /type "deny" /glob "*" }
    /0010 { /type "allow" /method "GET" /url "/content/*" }
    /0011 { /type "allow" /method "POST" /url "/content/*" }
    /0020 { /type "deny" /selectors "infinity" /extension "json" }
  }
  /cache {
    /docroot "/var/www/html"
    /statfileslevel "3"
    /allowAuthorized "0"
    /rules { /0000 { /glob "*" /type "allow" } /0001 { /glob "*.json" /type "deny" } }
    /invalidate { /0000 { /glob "*" /type "deny" } /0001 { /glob "*.html" /type "allow" } }
    /allowedClients { /0000 { /glob "*" /type "deny" } /0001 { /glob "127.0.0.1" /type "allow" } }
  }
} }
"#;

fn push_page_member(alloc: Global, draft: &mut ScenarioDraft, page: u64) -> Mem<()>
    ensures { OnOk result (draft.new ≡ with_text (page_member page) draft.old) }
{
    draft.push(b",\"p")?;
    draft.push_number(alloc, page)?;
    draft.push(b"\":{\"n\":0,\"sling:resourceType\":\"site/page\"}")
}

fn push_pages(alloc: Global, draft: &mut ScenarioDraft, numbers: &[u64]) -> Mem<()>
    ensures { OnOk result (draft.new ≡ with_text (flat_map page_member numbers.now) draft.old) }
{
    for page in numbers {
        push_page_member(alloc, draft, *page)?;
    }
    Ok(())
}

fn push_folder(alloc: Global, draft: &mut ScenarioDraft, folder: u64) -> Mem<()>
    ensures { OnOk result (draft.new ≡ with_text (folder_member folder) draft.old) }
{
    draft.push(b",\"a")?;
    draft.push_number(alloc, folder)?;
    draft.push(b"\":{")?;
    draft.push(PAGES_ORDER)?;
    push_pages(alloc, draft, &PAGES)?;
    draft.push(b"}")
}

fn push_folders(alloc: Global, draft: &mut ScenarioDraft, numbers: &[u64]) -> Mem<()>
    ensures { OnOk result (draft.new ≡ with_text (flat_map folder_member numbers.now) draft.old) }
{
    for folder in numbers {
        push_folder(alloc, draft, *folder)?;
    }
    Ok(())
}

fn push_content(alloc: Global, draft: &mut ScenarioDraft) -> Mem<()>
    ensures { OnOk result (draft.new ≡ with_text content_line draft.old) }
{
    draft.push(APPS)?;
    draft.push(
        b",\"content\":{\":order\":[\"site\"],\"site\":{\":order\":[\"a0\",\"a1\",\"a2\",\"a3\"]",
    )?;
    push_folders(alloc, draft, &FOLDERS)?;
    draft.push(b"}}}\n")
}

/// The lines before the first block.
pub fn push_head(alloc: Global, draft: &mut ScenarioDraft) -> Mem<()>
    ensures { OnOk result (draft.new ≡ with_text scenario_head draft.old) }
{
    draft.push(b"scenario 1\ncontent\n")?;
    push_content(alloc, draft)?;
    draft.push(b".\nfarm\n")?;
    draft.push(FARM)?;
    draft.push(b".\n")
}
